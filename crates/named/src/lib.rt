// The rows that a rewriting names: whether all are in use, whether one is named twice, and the weight that each loses or regains.
#![tactic(auto)]

pub mod inner;
mod rows;

pub use rows::{all_below, repeated};
