// Pointing: the words of a text that a message is about.
use cli_scenario::wrong_word;
use cli_vocabulary::{Key, Lines, Words};

// The words of a line; lines count from 1.
fn words(text: &[u8], line: u64) -> Words<'_> {
    let before = line.saturating_sub(1) as usize;
    Words::of(Lines::of(text).nth(before).unwrap_or(&[]))
}

// The word that a line begins with.
pub fn keyword(text: &[u8], line: u64) -> &[u8] {
    words(text, line).next().unwrap_or(&[])
}

// The first word of a line that is no value of a key.
pub fn wrong_value(text: &[u8], line: u64, key: Key) -> &[u8] {
    words(text, line)
        .skip(1)
        .find(|word| wrong_word(word, key).is_err())
        .unwrap_or(&[])
}

// How many values stand in a line, after its keyword.
pub fn values(text: &[u8], line: u64) -> usize {
    words(text, line).count().saturating_sub(1)
}
