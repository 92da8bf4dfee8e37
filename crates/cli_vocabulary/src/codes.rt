// Keys by their codes: any byte. A key's code is its place among the variants, from 0, as `as u8` gives it.
ghost use Rattle.std.specs.Prelude.{◌≡◌};
ghost use Rattle.cli_vocabulary.specs.Codes.{entry_of, key_code, lone_number, item_of_code};

use super::faults::Fault;
use super::items::{self, Item};
use super::keys::{KEYS, Key, NUMBER, Values};
use super::numbers::number_of;

// The code of a word that is no keyword, and that of a line without words: the two after the keys'.
pub const UNKNOWN: u8 = KEYS as u8;

pub const NO_KEY: u8 = UNKNOWN + 1;

// What there is to say of a code: its keyword in ASCII, padded with blanks to ten letters; how many values a line takes; the
// largest number.
#[derive(Clone, Copy)]
pub struct Entry {
    pub name: [u8; 10],
    pub values: Values,
    pub most: u64,
}

// What there is to say of a code; what is no key has a name of blanks and takes no values.
#[tactic(auto, unfolding(crate::specs::Ascii::ascii))]
pub fn key_of(code: u8) -> Entry
    ensures { result ≡ entry_of code }
{
    match Key::with_code(code) {
        Some(key) => Entry {
            name: key.keyword(),
            values: key.values(),
            most: key.most(),
        },
        None => Entry {
            name: *b"          ",
            values: Values::Exactly(0),
            most: NUMBER,
        },
    }
}

// Internal: a word's code, or UNKNOWN.
pub fn key_code(word: &[u8]) -> u8
    ensures { result ≡ key_code word.now }
{
    match Key::named(word) {
        Some(key) => key as u8,
        None => UNKNOWN,
    }
}

// Internal: a number alone, which stands once.
fn lone_number(word: &[u8]) -> Result<Item, Fault>
    ensures { result ≡ lone_number word.now }
{
    let value = number_of(word, NUMBER)?;
    Ok(Item { value, times: 1 })
}

// Internal: a word of a line as a value of a code's key; for a code of no key, a number alone.
pub fn item_of(code: u8, word: &[u8]) -> Result<Item, Fault>
    ensures { result ≡ item_of_code code word.now }
{
    match Key::with_code(code) {
        Some(key) => items::item_of(key, word),
        None => lone_number(word),
    }
}
