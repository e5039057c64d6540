// The last standing step's entry: whether it is bad, and what its step added to conceded.
#![tactic(auto)]

pub mod inner;
