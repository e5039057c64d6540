// The working weights of the bound by groups, and what is lost: of each row in use one or the other.
#![tactic(auto)]

pub mod inner;

// What a row's weight goes to: it is lost where the row is unsatisfied and nothing is left of it, and works where something is left.
#[derive(Clone, Copy)]
pub struct Shares {
    pub lost: u64,
    pub working: u64,
}
