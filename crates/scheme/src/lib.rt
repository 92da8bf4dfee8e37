// The scheme on a list of cells: one step in place, a run over two end lists, a settling run.
#![tactic(auto)]

mod many_steps;
mod neighbours;
mod one_step;
mod settling;

pub use many_steps::{Totals, run};
pub use neighbours::density_at;
pub use one_step::{Moved, OPEN, open_cap, step};
pub use settling::{Settled, settle};
