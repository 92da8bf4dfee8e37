// Level 1 on the command line: the forecast with its picture, and the settling run.
#![tactic(auto)]

pub mod forecasts;
pub mod settlings;
