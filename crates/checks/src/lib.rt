// Checks 5 to 11 and 20 of the refusal table: one test a check, for every call that the table names, and the state that they
// let through.
#![tactic(auto)]

mod accepted;
mod lists;
mod states;
mod values;

pub use accepted::AcceptedState;
pub use lists::{bad_caps, bad_cells, bad_ends, bad_horizon, bad_output};
pub use states::judged_shape;
pub use values::first_above;
