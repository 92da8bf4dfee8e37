// Level 3, public: station readings. The call asks nothing of its input: it judges it, and refuses what the table refuses.
#![tactic(auto)]

mod stations;

pub use stations::{Estimate, StationReading, station};
