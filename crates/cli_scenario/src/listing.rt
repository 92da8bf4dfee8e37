// The values of a key: what its lines give, one after the other, stored at the start of a list.
ghost use Rattle.std.specs.Prelude.{◌≡◌, ◌+◌, ◌++◌, ◌≤◌, length, take, drop, replicate};
ghost use Rattle.cli_vocabulary.specs.Pieces.{words_in, words};
ghost use Rattle.cli_scenario.specs.Values.{all_values, given, values_of, Stored};

use cli_vocabulary::{Item, Key, Lines, Words, item_of};

// Internal: a value stored so many times from a place on.
fn fill(out: &mut [u64], from: usize, count: usize, value: u64)
    requires { from + count ≤ length out.old }
    ensures { out.new ≡ take from out.old ++ replicate count value ++ drop (from + count) out.old }
{
    out[from..from + count].fill(value);
}

// Internal: a value stored a number of times, as far as the list goes; how far it is then filled.
pub fn append(out: &mut [u64], filled: usize, item: Item) -> usize
    requires { filled ≤ length out.old }
    ensures { Stored out.old out.new filled (replicate item.times item.value) result }
{
    let count = (out.len() - filled).min(item.times as usize);
    fill(out, filled, count, item.value);
    filled + count
}

// Internal: the values of words stored; a wrong one has none.
fn store_words(words: Words<'_>, key: Key, out: &mut [u64], filled: usize) -> usize
    requires { filled ≤ length out.old }
    ensures { Stored out.old out.new filled (all_values key (words_in words.entry.rest.now)) result }
{
    let mut filled = filled;
    for word in words {
        if let Ok(item) = item_of(key, word) {
            filled = append(out, filled, item);
        }
    }
    filled
}

// Internal: what a line gives to a key, stored.
fn store_line(line: &[u8], key: Key, out: &mut [u64], filled: usize) -> usize
    requires { filled ≤ length out.old }
    ensures { Stored out.old out.new filled (given key (words line.now)) result }
{
    let mut words = Words::of(line);
    let Some(keyword) = words.next() else {
        return filled;
    };
    if Key::named(keyword) == Some(key) {
        store_words(words, key, out, filled)
    } else {
        filled
    }
}

// The values of all lines of a key, in their order, at the start of the list, as far as it goes; how many are stored. A
// list longer than `out` is clipped. Of a text that `judge` finds fault with, a wrong value counts for none.
// A length, and not the filled part: tried, and no clause on what the rest of `out` keeps (`Stored`) was proved of a part.
pub fn values(text: &[u8], key: Key, out: &mut [u64]) -> usize
    ensures { Stored out.old out.new 0 (values_of key text.now) result }
{
    let mut filled = 0;
    for line in Lines::of(text) {
        filled = store_line(line, key, out, filled);
    }
    filled
}
