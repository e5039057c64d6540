// The new rows of a rewriting that fits, and its entry.
#![tactic(auto)]

pub mod inner;
