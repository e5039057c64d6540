// The bound by groups at a node: what is lost, and what groups of rows that cannot all hold cost.
#![tactic(auto)]

pub mod inner;
