// Values: what one word of a line stands for, a value taken a number of times.
ghost use Rattle.std.specs.Prelude.{◌≡◌};
ghost use Rattle.cli_vocabulary.specs.Numbers.{number_of};
ghost use Rattle.cli_vocabulary.specs.Items.{letter_of, plain_of, times_of, single_of, run_of, item_of};

use super::faults::Fault;
use super::keys::{Key, Values};
use super::numbers::number_of;
use super::pieces::{CARET, split_before};

// A value and how often it stands.
#[derive(Clone, Copy)]
pub struct Item {
    pub value: u64,
    pub times: u64,
}

// Internal: the code of a letter, one byte alone: W, L, D are 0, 1, 2.
fn letter(word: &[u8]) -> Option<u64>
    ensures { result ≡ letter_of word.now }
{
    match word {
        b"W" => Some(0),
        b"L" => Some(1),
        b"D" => Some(2),
        _ => None,
    }
}

// Internal: a value without its count: a number or, in a word, a letter.
fn plain(key: Key, word: &[u8]) -> Result<u64, Fault>
    ensures { result ≡ plain_of key word.now }
{
    match letter(word) {
        Some(code) if key == Key::Word => Ok(code),
        _ => number_of(word, key.most()),
    }
}

// Internal: a run N^K, or a value that stands once.
fn run(key: Key, word: &[u8]) -> Result<Item, Fault>
    ensures { result ≡ run_of key word.now }
{
    let (value, marked) = split_before(word, CARET);
    match marked {
        [_, count @ ..] => counted(key, value, count),
        [] => single(key, word),
    }
}

// Internal: a value and its count.
fn counted(key: Key, value: &[u8], count: &[u8]) -> Result<Item, Fault>
    ensures { result ≡ times_of (plain_of key value.now) (number_of 4294967295 count.now) }
{
    let value = plain(key, value)?;
    let times = number_of(count, 4294967295)?;
    Ok(Item { value, times })
}

// Internal: a value that stands once.
fn single(key: Key, word: &[u8]) -> Result<Item, Fault>
    ensures { result ≡ single_of key word.now }
{
    let value = plain(key, word)?;
    Ok(Item { value, times: 1 })
}

// Internal: a word of a line as a value of its key.
pub fn item_of(key: Key, word: &[u8]) -> Result<Item, Fault>
    ensures { result ≡ item_of key word.now }
{
    match key.values() {
        Values::Many => run(key, word),
        Values::Exactly(_) => single(key, word),
    }
}
