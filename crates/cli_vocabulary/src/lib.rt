// The vocabulary of a scenario: the lines and words of a text, the keys, and what one word is as a value of a key.
#![tactic(auto)]

pub mod codes;
mod faults;
mod items;
mod keys;
mod numbers;
mod pieces;

pub use faults::Fault;
pub use items::{Item, item_of};
pub use keys::{KEYS, Key, Values};
pub use pieces::{BLANK, HASH, Lines, NEWLINE, Words, piece_end};
