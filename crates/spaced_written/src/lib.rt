// Literals each with a space in front, as competition files have them: in a clause, and in the line of a reading.
#![tactic(auto)]

pub mod inner;
