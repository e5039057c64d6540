// The small questions that are asked of the kinds of value. Nothing here asks anything of its caller.
#![tactic(auto)]

mod parts;
mod refusals;
mod rows;

pub use parts::{remnant, satisfied};
pub use refusals::numbered;
pub use rows::{
    bad_lits, bad_mark, bad_weight, breaks, charge_on, given_up, holds, is_hard, row_why,
    with_weight,
};
