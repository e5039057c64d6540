// What a rewriting sees of the rows that it names: their remnants, what these show and give, and the smallest weight.
#![tactic(auto)]

use literals::Lits;

pub mod inner;

// What following a chain comes to: whether its rows fit so far, and the literal that the last of them fixes.
#[derive(Clone, Copy)]
pub struct Link {
    pub fits: bool,
    pub lit: Lits,
}

// The two rows that a fork gives last.
#[derive(Clone, Copy)]
pub struct Ends {
    pub one: Lits,
    pub other: Lits,
}
