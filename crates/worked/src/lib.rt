// What the programs of the worked cases share: the roads, long lists, and what they print with.
#![tactic(auto)]

pub mod lists;
pub mod print;
pub mod roads;
