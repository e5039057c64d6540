// What a row adds to the bound: to what is lost, or to the sum of the one literal that is left of it.
#![tactic(auto)]

pub mod inner;
