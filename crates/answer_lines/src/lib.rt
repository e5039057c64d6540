// The lines of an answer, written of the text's own pieces: a refusal's three, or a search's seven.
#![tactic(auto)]

pub mod inner;
mod texts;

pub use texts::AnswerText;
