// The lines of the answer to a competition file: a refusal's two, or a search's, of which those of a reading stand only where there is one.
#![tactic(auto)]

pub mod inner;
mod texts;

pub use texts::WcnfAnswerText;
