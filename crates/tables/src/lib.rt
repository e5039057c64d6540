// A table in lent words: whether it is admissible, and the weight of a reading.
#![tactic(auto)]

pub mod inner;
mod judge;
mod weigh;

pub use judge::{bad_table, rows_and_sum, table_why};
pub use weigh::weight_of;
