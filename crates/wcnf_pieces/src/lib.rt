// A clause of a competition file up to its closing 0: its weight and its literals as a set.
// What is read is judged elsewhere; here a clause says only whether its literals are bad. Whether it is hard, top says, which is not known here.
#![tactic(auto)]

use literals::Lits;

mod clauses;

pub use clauses::clause_at;

// A signed number of a text, which need be no literal, by its size and sign, and the place behind it.
#[derive(Clone, Copy)]
pub struct SignedRead {
    pub size: u64,
    pub negative: bool,
    pub next: usize,
}

// The literals of a clause as a set, whether one is above the count, and the place behind the clause's line.
#[derive(Clone, Copy)]
pub struct Gathered {
    pub lits: Lits,
    pub above: bool,
    pub next: usize,
}

// A clause by its weight and its literals, whether these are bad, and the place behind its line.
#[derive(Clone, Copy)]
pub struct ClauseRead {
    pub weight: u64,
    pub lits: Lits,
    pub bad: bool,
    pub next: usize,
}
