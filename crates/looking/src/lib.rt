// A row of a scan of the bound by groups: it is passed over, nothing is left of it, or one literal, which is made true.
#![tactic(auto)]

use rules::Part;

pub mod inner;

// How far a hunt has come: its partial reading, how many entries its trail has, and the conflict once one is found, which is 0 until then. What
// the entries are stands in lent words, a mask and a row for each. All fields are words, so that copying it in a loop costs nothing.
#[derive(Clone, Copy)]
pub struct Trail {
    pub q: Part,
    pub entries: usize,
    pub found: u64,
    pub conflict: usize,
}
