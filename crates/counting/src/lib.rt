// Level 2, public: the word count. It asks nothing of its input: it judges it, and refuses what the table refuses.
#![tactic(auto)]

mod counting;

pub use counting::{WordCount, count};
