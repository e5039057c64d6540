// A reading in a text: one literal for each variable, or none, on a line of its own.
#![tactic(auto)]

pub mod inner;
