// The group of a conflict: the rows that cannot all hold below the node, what they cost, and the cost taken from each of them.
#![tactic(auto)]

pub mod inner;

// What has joined a group so far: the variables that are needed, the smallest working weight, and how many rows. Which rows stands in lent words.
#[derive(Clone, Copy)]
pub struct Joined {
    pub needed: u64,
    pub cost: u64,
    pub size: usize,
}
