// The arguments of a run: what they ask for, and what is said where they are wrong.
#![tactic(auto)]

pub mod options;
pub mod usage;
pub mod words;
