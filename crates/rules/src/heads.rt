// The first words of a desk, and the limits of what lies behind them.
ghost use Rattle.std.specs.Prelude.{◌≡◌, get_or};
ghost use Rattle.rules.specs.Figures.{head_of};

use crate::{Desk, Entry};

impl Desk {
    // Words in front of the rows, and where each of them stands.
    pub const HEAD: usize = 8;

    pub const VARIABLES: usize = 0;

    pub const IN_USE: usize = 1;

    pub const CAPACITY: usize = 2;

    pub const STANDING: usize = 3;

    pub const CONCEDED: usize = 4;

    pub const DECIDED: usize = 5;

    pub const TRUTHS: usize = 6;

    pub const LOADED: usize = 7;
    // Rows that a desk may have room for.
    pub const MOST_CAPACITY: u64 = 4_096;
    // Steps that may stand.
    pub const MOST_STEPS: u64 = 256;

    // The head of the desk in these words. A word past their end reads as 0.
    pub fn of(words: &[u64]) -> Desk
        ensures { result ≡ head_of words.now }
    {
        let variables = word(words, Desk::VARIABLES);
        let in_use = word(words, Desk::IN_USE);
        let capacity = word(words, Desk::CAPACITY);
        let standing = word(words, Desk::STANDING);
        let conceded = word(words, Desk::CONCEDED);
        let decided = word(words, Desk::DECIDED);
        let truths = word(words, Desk::TRUTHS);
        let loaded = word(words, Desk::LOADED);
        Desk {
            variables,
            in_use,
            capacity,
            standing,
            conceded,
            decided,
            truths,
            loaded,
        }
    }
}

impl Entry {
    // Words of an entry, and where they stand: the kind; a rewriting's weight, or a decision's variable; the count of rows named;
    // the first of them; the first new row.
    pub const WORDS: usize = 16;

    pub const KIND: usize = 0;

    pub const WEIGHT: usize = 1;

    pub const VARIABLE: usize = 1;

    pub const COUNT: usize = 2;

    pub const ROWS: usize = 3;

    pub const FIRST: usize = 15;
    // Words of all entries.
    pub const ALL_WORDS: usize = 4_096;
    // The last kind of step, and how many kinds there are.
    pub const MOST_KIND: u64 = 4;

    pub const KINDS: usize = 5;
    // Rows that an entry has room to name.
    pub const NAMED: usize = 12;
    // The links of the longest chain.
    pub const LONGEST: usize = 8;
}

// A word, or 0 past the end.
pub fn word(words: &[u64], i: usize) -> u64
    ensures { result ≡ get_or words.now i 0 }
{
    if i < words.len() { words[i] } else { 0 }
}
