// Rows and entries in lent words: the one room that knows how either lies.
#![tactic(auto)]

pub mod inner;
