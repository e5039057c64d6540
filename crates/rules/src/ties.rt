// Every figure of document 01 in one place to be read, held to the definitions' own.
ghost use Rattle.std.specs.Prelude.{◌≡◌};
ghost use Rattle.rules.specs.Figures.{figures};

use crate::{Desk, Entry, Figures, Row, TextRead};
use literals::Literal;

impl TextRead {
    // Digits of a number.
    pub const DIGITS: usize = 10;
    // The largest budget.
    pub const MOST_BUDGET: u64 = 4_294_967_295;
    // Bytes that the program reads.
    pub const MOST_INPUT: usize = 65_536;
    // Rows that the program reads.
    pub const MOST_INPUT_ROWS: usize = 512;
}

pub fn all_figures() -> Figures
    ensures { result ≡ figures }
{
    Figures {
        variables: Literal::MOST,
        row_words: Row::WORDS,
        rows: Row::MOST,
        weight: Row::MOST_WEIGHT,
        head: Desk::HEAD,
        capacity: Desk::MOST_CAPACITY,
        steps: Desk::MOST_STEPS,
        entry_words: Entry::WORDS,
        entries_words: Entry::ALL_WORDS,
        kind: Entry::MOST_KIND,
        named: Entry::NAMED,
        longest: Entry::LONGEST,
        digits: TextRead::DIGITS,
        budget: TextRead::MOST_BUDGET,
        input: TextRead::MOST_INPUT,
        input_rows: TextRead::MOST_INPUT_ROWS,
    }
}
