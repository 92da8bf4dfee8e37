// Level 3, public: how near the next mode is. The call asks nothing of its input: it judges it, and refuses what the table
// refuses.
#![tactic(auto)]

mod changes;
mod ranking;
mod sinking;

pub use ranking::nearest;
