// What a scenario asks for: its actions, its values as the library takes them, what a refusal of them means, and the status
// of what was done.
#![tactic(auto)]

mod action;
pub mod caps;
mod inputs;
pub mod keys;
pub mod numbers;
mod refusals;
mod status;

pub use action::Action;
pub use inputs::{Forecast, State};
pub use keys::is_given;
pub use refusals::{Lengths, Refused};
pub use status::{Status, worst};
