// The pieces that a text is read of, whatever its form: bytes, numbers, lines of a key and a number.
#![tactic(auto)]

mod bytes;
pub mod inner;
mod numbers;

pub use bytes::{byte_at, stands};
pub use numbers::number_at;
