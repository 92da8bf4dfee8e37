// The reader of a scenario's text: lines of a keyword and values. A text means one thing only: `judge` says what is wrong
// with it first, and `values` and `line_of` what its lines give to a key; `wrong_word` serves messages. `codes` has these
// three for any byte.
#![tactic(auto)]

pub mod codes;
mod finding;
mod judging;
mod listing;

pub use cli_vocabulary::{Fault, Key};
pub use finding::line_of;
pub use judging::{Verdict, judge, wrong_word};
pub use listing::values;
