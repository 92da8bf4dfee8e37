// Level 2, public: the reading of a state and the fit test of a word. No call asks anything of its input: each judges it, and
// refuses what the table refuses. Internal, for `rows` and `candidate`: `Mode`.
#![tactic(auto)]

mod fitting;
mod mode;
mod reading;
mod tallying;
mod writing;

pub use fitting::fit;
pub use mode::Mode;
pub use reading::{Counts, read};
