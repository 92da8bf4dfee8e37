// Level 1, public: the forecast and the settling run. Neither asks anything of its input: each judges it, and refuses what
// the table refuses.
#![tactic(auto)]

mod accepted;
mod copying;
mod forecasting;
mod settling;
mod values;

pub use forecasting::{Record, forecast};
pub use settling::settle;
