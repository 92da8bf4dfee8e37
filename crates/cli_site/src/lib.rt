// Level 3 on the command line: station readings, and how near the next mode is.
#![tactic(auto)]

pub mod rankings;
pub mod stations;
