// Level 2, public: the candidate prediction. It asks nothing of its input: it judges it, and refuses what the table refuses.
#![tactic(auto)]

mod candidates;

pub use candidates::{CandidateResult, bad_estimate, candidate};
