// Level 2 on the command line: the reading of a state, and the fit test.
#![tactic(auto)]

pub mod fits;
pub mod states;
