// Lines and words: the pieces of a text, one after the other.
ghost use Rattle.std.specs.Prelude.{◌≡◌, ◌≤◌, not, length, position, take, drop};
ghost use Rattle.cli_vocabulary.specs.Pieces.{is_blank, cuts, before, PieceEnds, words_in, words};

// The marks that a text is cut at. A blank stands for a space, a tab or a carriage return.
pub const NEWLINE: u8 = b'\n';

pub const BLANK: u8 = b' ';

pub const HASH: u8 = b'#';

pub const CARET: u8 = b'^';

// Internal: whether a byte is a space, a tab or a carriage return.
fn is_blank(b: u8) -> bool
    ensures { result ≡ is_blank b }
{
    matches!(b, b' ' | b'\t' | b'\r')
}

// Internal: whether a byte is the mark.
fn cuts(mark: u8, b: u8) -> bool
    ensures { result ≡ cuts mark b }
{
    if mark == BLANK {
        is_blank(b)
    } else {
        b == mark
    }
}

// Internal: where the first mark stands.
fn first(text: &[u8], mark: u8) -> Option<usize>
    ensures { result ≡ position (cuts mark) text.now }
{
    text.iter().position(|b| cuts(mark, *b))
}

// Internal: where the first word starts.
fn word_start(text: &[u8]) -> Option<usize>
    ensures { result ≡ position (λ b. not (is_blank b)) text.now }
{
    text.iter().position(|b| !is_blank(*b))
}

// Internal: how many bytes stand before the first mark; all where there is none.
#[tactic(auto, using(crate::proofs::Marks::before_found))]
fn before(text: &[u8], mark: u8) -> usize
    ensures { result ≡ before mark text.now }
{
    first(text, mark).unwrap_or(text.len())
}

// Internal: where the piece that starts at `from` ends: at the next mark, whatever byte that is, or with the text.
pub fn piece_end(text: &[u8], from: usize, mark: u8) -> usize
    requires { from ≤ length text.now }
    ensures { PieceEnds text.now from mark result }
{
    from + before(&text[from..], mark)
}

// Internal: a text cut before its first mark.
#[tactic(auto, using(crate::proofs::Marks::before_bound))]
pub fn split_before(text: &[u8], mark: u8) -> (&[u8], &[u8])
    ensures front { result.0.now ≡ take (before mark text.now) text.now }
    ensures back { result.1.now ≡ drop (before mark text.now) text.now }
{
    text.split_at(before(text, mark))
}

// Internal: a text without the mark that it starts with; nothing where there is none.
fn past_mark(text: &[u8]) -> &[u8]
    ensures { result.now ≡ drop 1 text.now }
{
    match text {
        [_, rest @ ..] => rest,
        [] => text,
    }
}

// The lines of a text that are still to come.
#[derive(Drop)]
pub struct Lines<'a> {
    pub rest: &'a [u8],
}

impl<'a> Lines<'a> {
    // The lines of a text.
    pub fn of(text: &'a [u8]) -> Lines<'a>
        ensures { result.rest.now ≡ text.now }
    {
        Lines { rest: text }
    }
}

impl<'a> Iterator for Lines<'a> {
    ghost use Rattle.std.specs.Iterator.{YieldsFirstRef, item_count};
    ghost use Rattle.cli_vocabulary.specs.Pieces.{lines};

    type Item = &'a [u8];

    ghost next_gives = { YieldsFirstRef (λ s. lines s.rest.now) };

    ghost remaining = { item_count (λ s. lines s.rest.now) };

    fn next(&mut self) -> Option<&'a [u8]> {
        if self.rest.is_empty() {
            return None;
        }
        let (line, rest) = split_before(self.rest, NEWLINE);
        self.rest = past_mark(rest);
        Some(line)
    }
}

// The words of a part of a line that are still to come; copied where they are counted before they are read.
#[derive(Clone, Copy)]
pub struct Words<'a> {
    pub rest: &'a [u8],
}

impl<'a> Words<'a> {
    // The words of a line: what stands before its comment, cut at blanks.
    pub fn of(line: &'a [u8]) -> Words<'a>
        ensures { words_in result.rest.now ≡ words line.now }
    {
        let (rest, _comment) = split_before(line, HASH);
        Words { rest }
    }
}

impl<'a> Iterator for Words<'a> {
    ghost use Rattle.std.specs.Iterator.{YieldsFirstRef, item_count};
    ghost use Rattle.cli_vocabulary.specs.Pieces.{words_in};

    type Item = &'a [u8];

    ghost next_gives = { YieldsFirstRef (λ s. words_in s.rest.now) };

    ghost remaining = { item_count (λ s. words_in s.rest.now) };

    fn next(&mut self) -> Option<&'a [u8]> {
        let start = word_start(self.rest)?;
        let (word, rest) = split_before(&self.rest[start..], BLANK);
        self.rest = rest;
        Some(word)
    }
}
