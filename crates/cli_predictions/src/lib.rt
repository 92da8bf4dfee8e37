// Level 2 on the command line: rows, candidate and word count.
#![tactic(auto)]

pub mod candidates;
pub mod counts;
pub mod predictions;
