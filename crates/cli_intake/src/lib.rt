// The text of a run: read whole, held to what its actions need, and what is said where it is wrong.
#![tactic(auto)]

pub mod errors;
pub mod input;
pub mod needs;
mod pointing;
