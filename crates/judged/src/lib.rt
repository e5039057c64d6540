// A desk that was judged once: its lent words, with the fact that they can be read. No function that takes one asks that again.
#![tactic(auto)]

pub mod inner;
