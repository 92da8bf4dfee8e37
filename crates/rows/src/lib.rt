// Level 2, public: the row prediction. It asks nothing of its input: it judges it, and refuses what the table refuses.
// Internal, for `candidate`: `WholeRow`.
#![tactic(auto)]

mod numerators;
mod prediction;

pub use numerators::WholeRow;
pub use prediction::predict;
