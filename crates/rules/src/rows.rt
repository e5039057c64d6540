// A row: its figures, and how it is made.
ghost use Rattle.std.specs.Prelude.{◌≡◌};
ghost use Rattle.rules.specs.Table.{new_row, hard_row, marked_row};

use crate::Row;
use literals::Lits;

impl Row {
    // Words of a row: mask of positive literals, mask of negative ones, weight, mark.
    pub const WORDS: usize = 4;
    // The mark of a hard row.
    pub const HARD: u64 = 1;
    // Rows that may be loaded.
    pub const MOST: usize = 2_048;
    // The limit of a weight, and of the weights' sum.
    pub const MOST_WEIGHT: u64 = 1_000_000_000;

    // A soft row.
    pub fn new(lits: Lits, weight: u64) -> Row
        ensures { result ≡ new_row lits weight }
    {
        Row {
            lits,
            weight,
            mark: 0,
        }
    }

    pub fn hard(lits: Lits) -> Row
        ensures { result ≡ hard_row lits }
    {
        Row {
            lits,
            weight: 0,
            mark: Row::HARD,
        }
    }

    pub fn marked(lits: Lits, weight: u64, mark: u64) -> Row
        ensures { result ≡ marked_row lits weight mark }
    {
        Row { lits, weight, mark }
    }
}
