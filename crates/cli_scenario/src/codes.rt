// The reader by codes: any byte. A line has the code of its first word (`cli_vocabulary::codes`): its key's, `UNKNOWN` or
// `NO_KEY`; no line has another. The reader by keys stays by keys, and so the two search and store alike: of a key's code they
// are proved to say the same (proofs/ByCode.antt).
ghost use Rattle.std.specs.Prelude.{◌≡◌, ◌≤◌, eqb, length, position};
ghost use Rattle.cli_vocabulary.specs.Pieces.{filled_piece, words_in, words, lines};
ghost use Rattle.cli_vocabulary.specs.Codes.{line_code};
ghost use Rattle.cli_scenario.specs.Values.{Stored};
ghost use Rattle.cli_scenario.specs.Codes.{wrong_value, all_values, given, values_of, line_of};

use super::listing::append;
use cli_vocabulary::codes::{NO_KEY, item_of, key_code};
use cli_vocabulary::{Fault, Lines, Words};

// What is wrong with one word as a value of a code; nothing with an empty one.
pub fn wrong_word(word: &[u8], code: u8) -> Result<(), Fault>
    ensures { result ≡ wrong_value code (filled_piece word.now) }
{
    if !word.is_empty() {
        item_of(code, word)?;
    }
    Ok(())
}

// Internal: a line's code.
fn line_code(line: &[u8]) -> u8
    ensures { result ≡ line_code (words line.now) }
{
    match Words::of(line).next() {
        Some(word) => key_code(word),
        None => NO_KEY,
    }
}

// Internal: whether a line has a code.
fn is_of(line: &[u8], code: u8) -> bool
    ensures { result ≡ eqb (line_code (words line.now)) code }
{
    line_code(line) == code
}

// Internal: how many lines stand before the first line of a code.
fn before(text: &[u8], code: u8) -> Option<usize>
    ensures { result ≡ position (λ line. eqb (line_code (words line)) code) (lines text.now) }
{
    Lines::of(text).position(|line| is_of(line, code))
}

// The first line of a code, from 1; 0 where no line has it.
pub fn line_of(text: &[u8], code: u8) -> u64
    ensures { result ≡ line_of code text.now }
{
    match before(text, code) {
        Some(place) => place as u64 + 1,
        None => 0,
    }
}

// Internal: the values of words stored; a wrong one has none.
fn store_all(words: Words<'_>, code: u8, out: &mut [u64], filled: usize) -> usize
    requires { filled ≤ length out.old }
    ensures { Stored out.old out.new filled (all_values code (words_in words.entry.rest.now)) result }
{
    let mut filled = filled;
    for word in words {
        if let Ok(item) = item_of(code, word) {
            filled = append(out, filled, item);
        }
    }
    filled
}

// Internal: what a line gives to a code, stored.
fn store_given(line: &[u8], code: u8, out: &mut [u64], filled: usize) -> usize
    requires { filled ≤ length out.old }
    ensures { Stored out.old out.new filled (given code (words line.now)) result }
{
    let mut words = Words::of(line);
    let Some(keyword) = words.next() else {
        return filled;
    };
    if key_code(keyword) == code {
        store_all(words, code, out, filled)
    } else {
        filled
    }
}

// The values of all lines of a code, as `values` stores those of a key; of lines with an unknown keyword the numbers, and of
// lines without words none.
pub fn values(text: &[u8], code: u8, out: &mut [u64]) -> usize
    ensures { Stored out.old out.new 0 (values_of code text.now) result }
{
    let mut filled = 0;
    for line in Lines::of(text) {
        filled = store_given(line, code, out, filled);
    }
    filled
}
