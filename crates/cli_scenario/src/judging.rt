// The judgement of a text: the first thing wrong with it, its line, and that line's key.
ghost use Rattle.std.specs.Prelude.{◌≡◌, ◌<◌, ◌^◌, length};
ghost use Rattle.cli_vocabulary.specs.Pieces.{words_in, filled_piece, words};
ghost use Rattle.cli_vocabulary.specs.Keys.{key_named};
ghost use Rattle.cli_scenario.specs.Judging.{is_seen, wrong_value, wrong_number, wrong_values, wrong_line, wrong_again, wrong_after, judged_line, outcome, verdict};

use super::finding::key_of;
use cli_vocabulary::{Fault, KEYS, Key, Lines, Values, Words, item_of};

// What is wrong first; its line, from 1; and that line's key, if it has one, and none for `NoEnd` and `EmptyText`.
#[derive(Clone, Copy)]
pub struct Verdict {
    pub fault: Fault,
    pub line: u64,
    pub key: Option<Key>,
}

// How far the judgement is: how many lines were found good, and which keys they have.
#[derive(Clone, Copy)]
struct Progress {
    line: u64,
    seen: [bool; KEYS],
}

// The longest line.
const LINE: usize = 4096;

// What is wrong with one word as a value of a key; nothing with an empty one.
pub fn wrong_word(word: &[u8], key: Key) -> Result<(), Fault>
    ensures { result ≡ wrong_value key (filled_piece word.now) }
{
    if !word.is_empty() {
        item_of(key, word)?;
    }
    Ok(())
}

// Internal: the first thing wrong with some words as values of a key.
fn wrong_value(words: Words<'_>, key: Key) -> Result<(), Fault>
    ensures { result ≡ wrong_value key (words_in words.entry.rest.now) }
{
    for word in words {
        item_of(key, word)?;
    }
    Ok(())
}

// Internal: whether a line of a key has another number of values than the key takes.
fn wrong_number(key: Key, n: usize) -> bool
    ensures { result ≡ wrong_number key n }
{
    match key.values() {
        Values::Many => n == 0,
        Values::Exactly(count) => n != count,
    }
}

// Internal: what is wrong with the values of a known key: their number, then the first wrong value.
fn wrong_values(words: Words<'_>, key: Key) -> Result<(), Fault>
    ensures { result ≡ wrong_values key (words_in words.entry.rest.now) }
{
    if wrong_number(key, words.count()) {
        Err(Fault::WrongCount)
    } else {
        wrong_value(words, key)
    }
}

// Internal: what is wrong with a line by itself.
fn wrong_line(line: &[u8]) -> Result<(), Fault>
    ensures { result ≡ wrong_line line.now }
{
    if LINE < line.len() {
        return Err(Fault::LongLine);
    }
    let mut words = Words::of(line);
    match words.next() {
        Some(keyword) => match Key::named(keyword) {
            Some(key) => wrong_values(words, key),
            None => Err(Fault::UnknownKey),
        },
        None => Ok(()),
    }
}

// Internal: whether a key was seen.
fn is_seen(seen: &[bool; KEYS], key: Key) -> bool
    ensures { result ≡ is_seen seen.now key }
{
    seen[key as usize]
}

// Internal: what is wrong with a key after others: it was given, and is no list.
fn wrong_again(seen: &[bool; KEYS], key: Option<Key>) -> Result<(), Fault>
    ensures { result ≡ wrong_again seen.now key }
{
    let Some(key) = key else {
        return Ok(());
    };
    match key.values() {
        Values::Exactly(_) if is_seen(seen, key) => Err(Fault::GivenAgain),
        _ => Ok(()),
    }
}

// Internal: what is wrong with a line after others: words after `end`, then its own fault, then its key given again.
fn wrong_after(seen: &[bool; KEYS], line: &[u8]) -> Result<(), Fault>
    ensures { result ≡ wrong_after seen.now line.now }
{
    match Words::of(line).next() {
        Some(_) if is_seen(seen, Key::End) => Err(Fault::AfterEnd),
        Some(keyword) => {
            wrong_line(line)?;
            wrong_again(seen, Key::named(keyword))
        }
        None => wrong_line(line),
    }
}

// Internal: the judgement one line on.
fn judge_line(p: Progress, line: &[u8]) -> Result<Progress, Verdict>
    requires { p.line < 2 ^ 63 }
    ensures { result ≡ judged_line p line.now }
{
    let number = p.line + 1;
    let key = key_of(line);
    if let Err(fault) = wrong_after(&p.seen, line) {
        return Err(Verdict {
            fault,
            line: number,
            key,
        });
    }
    let mut seen = p.seen;
    if let Some(key) = key {
        seen[key as usize] = true;
    }
    Ok(Progress { line: number, seen })
}

// Internal: what the lines come to, none of which is wrong.
fn outcome(p: Progress) -> Result<(), Verdict>
    ensures { result ≡ outcome p }
{
    if is_seen(&p.seen, Key::End) {
        Ok(())
    } else {
        Err(Verdict {
            fault: Fault::NoEnd,
            line: p.line,
            key: None,
        })
    }
}

// The first thing wrong with a text, or nothing.
pub fn judge(text: &[u8]) -> Result<(), Verdict>
    ensures { result ≡ verdict text.now }
{
    if text.is_empty() {
        return Err(Verdict {
            fault: Fault::EmptyText,
            line: 1,
            key: None,
        });
    }
    let mut p = Progress {
        line: 0,
        seen: [false; KEYS],
    };
    for line in Lines::of(text) {
        p = judge_line(p, line)?;
    }
    outcome(p)
}
