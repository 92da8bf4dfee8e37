// Words: n+1 letters, one a face; which of them are legal, and check 12 of the refusal table, for the calls that take a word.
#![tactic(auto)]

mod accepted;
mod judging;
mod offences;

pub use accepted::AcceptedWord;
