// Keys: the keywords of a scenario, one row each.
ghost use Rattle.std.specs.Prelude.{◌≡◌, ◌==◌, find};
ghost use Rattle.std.specs.List.{list_all};
ghost use Rattle.cli_vocabulary.specs.Keys.{key_row, keyword, values_of, most_of, is_name, key_named};
ghost use Rattle.cli_vocabulary.specs.Codes.{key_at};

// What a line may begin with.
#[derive(Clone, Copy, PartialEq, Eq)]
pub enum Key {
    Road,
    Cells,
    Upstream,
    Downstream,
    Pair,
    Horizon,
    Word,
    Mode,
    Estimates,
    Bits,
    Forecast,
    Settle,
    Read,
    Fit,
    Rows,
    Candidate,
    Count,
    End,
    Density,
    Flow,
    Speed,
    Station,
    Readlast,
    Nearest,
    Totals,
    Caps,
}

// How many keys there are: a new one is a variant, one more here, and a row at the end of the table.
pub const KEYS: usize = 26;

// How many values a line takes: one or more, joined to those of the key's other lines, or so many and no second line.
#[derive(Clone, Copy)]
pub enum Values {
    Many,
    Exactly(usize),
}

// A key; its keyword in ASCII, padded with blanks to ten letters; how many values a line takes; the largest number.
#[derive(Clone, Copy)]
struct Row(Key, [u8; 10], Values, u64);

// The largest number: a code or a mode is one byte, a bit pattern or a total 64 bits, any other number 32 bits.
const BYTE: u64 = u8::MAX as u64;

pub const NUMBER: u64 = u32::MAX as u64;

const WIDE: u64 = u64::MAX;

// A key's row stands at its place among the variants. No other keyword starts with `end`: a text cut off within a keyword
// has no `end`. A name is padded since `Key::named` takes a word with blanks behind it too.
const TABLE: [Row; KEYS] = [
    Row(Key::Road, *b"road      ", Values::Exactly(5), NUMBER),
    Row(Key::Cells, *b"cells     ", Values::Many, NUMBER),
    Row(Key::Upstream, *b"upstream  ", Values::Many, NUMBER),
    Row(Key::Downstream, *b"downstream", Values::Many, NUMBER),
    Row(Key::Pair, *b"pair      ", Values::Exactly(2), NUMBER),
    Row(Key::Horizon, *b"horizon   ", Values::Exactly(1), NUMBER),
    Row(Key::Word, *b"word      ", Values::Many, BYTE),
    Row(Key::Mode, *b"mode      ", Values::Exactly(1), BYTE),
    Row(Key::Estimates, *b"estimates ", Values::Exactly(3), NUMBER),
    Row(Key::Bits, *b"bits      ", Values::Exactly(3), WIDE),
    Row(Key::Forecast, *b"forecast  ", Values::Exactly(0), NUMBER),
    Row(Key::Settle, *b"settle    ", Values::Exactly(0), NUMBER),
    Row(Key::Read, *b"read      ", Values::Exactly(0), NUMBER),
    Row(Key::Fit, *b"fit       ", Values::Exactly(0), NUMBER),
    Row(Key::Rows, *b"rows      ", Values::Exactly(0), NUMBER),
    Row(Key::Candidate, *b"candidate ", Values::Exactly(0), NUMBER),
    Row(Key::Count, *b"count     ", Values::Exactly(1), NUMBER),
    Row(Key::End, *b"end       ", Values::Exactly(0), NUMBER),
    Row(Key::Density, *b"density   ", Values::Exactly(2), NUMBER),
    Row(Key::Flow, *b"flow      ", Values::Exactly(2), NUMBER),
    Row(Key::Speed, *b"speed     ", Values::Exactly(2), NUMBER),
    Row(Key::Station, *b"station   ", Values::Exactly(0), NUMBER),
    Row(Key::Readlast, *b"readlast  ", Values::Exactly(0), NUMBER),
    Row(Key::Nearest, *b"nearest   ", Values::Exactly(0), NUMBER),
    Row(Key::Totals, *b"totals    ", Values::Exactly(2), WIDE),
    Row(Key::Caps, *b"caps      ", Values::Many, NUMBER),
];

impl Key {
    // The key that a word is the keyword of.
    pub fn named(word: &[u8]) -> Option<Key>
        ensures { result ≡ key_named word.now }
    {
        let row = row_named(word)?;
        Some(row.0)
    }

    // The key that a code is the place of, from 0; none from `KEYS` on.
    pub fn with_code(code: u8) -> Option<Key>
        ensures { result ≡ key_at code }
    {
        let place = code as usize;
        if place < KEYS {
            Some(TABLE[place].0)
        } else {
            None
        }
    }

    // The keyword, padded with blanks to ten letters.
    pub fn keyword(self) -> [u8; 10]
        ensures { result ≡ keyword self }
    {
        self.row().1
    }

    // How many values a line takes.
    pub fn values(self) -> Values
        ensures { result ≡ values_of self }
    {
        self.row().2
    }

    // The largest number among its values.
    pub fn most(self) -> u64
        ensures { result ≡ most_of self }
    {
        self.row().3
    }

    fn row(self) -> Row
        ensures { result ≡ key_row self }
    {
        TABLE[self as usize]
    }
}

// Internal: the first row that has a word for its name.
fn row_named(word: &[u8]) -> Option<Row>
    ensures { result ≡ find (λ row. is_name word.now row.1) TABLE }
{
    TABLE.iter().copied().find(|row| is_name(word, &row.1))
}

// Internal: whether a word, with blanks behind it, is a name.
fn is_name(word: &[u8], name: &[u8]) -> bool
    ensures { result ≡ is_name word.now name.now }
{
    match name.strip_prefix(word) {
        Some(rest) => is_padding(rest),
        None => false,
    }
}

// Internal: blanks alone.
fn is_padding(rest: &[u8]) -> bool
    ensures { result ≡ list_all (λ b. b == 32) rest.now }
{
    rest.iter().all(|b| *b == b' ')
}
