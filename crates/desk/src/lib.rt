// A table loaded onto a desk in lent words.
#![tactic(auto)]

pub mod inner;
mod lay;

pub use lay::load;
