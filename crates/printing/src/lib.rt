// Printing: pages that gather what a program writes, and the words, lists and doubles on them.
#![tactic(auto)]

pub mod doubles;
mod lists;
mod page;
mod system;
mod words;

pub use page::{Form, Page, Stream, Streams};
pub use words::{NAME, WORD, plural};
