// What the program's input comes to, whatever the form of its text: its rows, loaded where they stand, bounded and searched, or the refusal.
#![tactic(auto)]

use rules::{Desk, Row, TextRead};

pub mod inner;

// Words of the head and the rows of the longest table that the program reads: all of a desk but the entries, of which no program's search has any.
pub const WORDS: usize = Desk::HEAD + Row::WORDS * TextRead::MOST_INPUT_ROWS;
