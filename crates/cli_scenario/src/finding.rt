// The key of a line, and the first line of a key.
ghost use Rattle.std.specs.Prelude.{◌≡◌, position};
ghost use Rattle.cli_vocabulary.specs.Pieces.{words, lines};
ghost use Rattle.cli_vocabulary.specs.Keys.{is_key, key_of};
ghost use Rattle.cli_scenario.specs.Values.{line_of};

use cli_vocabulary::{Key, Lines, Words};

// Internal: a line's key, if its first word is a keyword.
pub fn key_of(line: &[u8]) -> Option<Key>
    ensures { result ≡ key_of (words line.now) }
{
    Key::named(Words::of(line).next()?)
}

// Internal: whether a line has a key.
fn is_of(line: &[u8], key: Key) -> bool
    ensures { result ≡ is_key key (key_of (words line.now)) }
{
    key_of(line) == Some(key)
}

// Internal: how many lines stand before the first line of a key.
fn before(text: &[u8], key: Key) -> Option<usize>
    ensures { result ≡ position (λ line. is_key key (key_of (words line))) (lines text.now) }
{
    Lines::of(text).position(|line| is_of(line, key))
}

// The first line of a key, from 1.
pub fn line_of(text: &[u8], key: Key) -> Option<u64>
    ensures { result ≡ line_of key text.now }
{
    let place = before(text, key)?;
    Some(place as u64 + 1)
}
