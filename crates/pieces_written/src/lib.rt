// The pieces that a text is written of, whatever its form: bytes, keys, numbers, literals, lines of a key and a number; and how a whole text
// is put into lent bytes.
#![tactic(auto)]

pub mod inner;
mod texts;

pub use texts::{Text, store};
