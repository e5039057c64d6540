// A hunt of the bound by groups: units made true one after another, the oldest first, until nothing is left of a row.
#![tactic(auto)]

pub mod inner;
