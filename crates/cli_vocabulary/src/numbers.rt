// Numbers: whole and decimal, of digits alone, refused before they could overflow.
ghost use Rattle.std.specs.Prelude.{◌≡◌, true, ◌+◌, ◌*◌};
ghost use Rattle.cli_vocabulary.specs.Numbers.{is_number, all_digits, decimal_from, at_most, number_of};

use super::faults::Fault;

// Internal: digits alone.
fn all_digits(word: &[u8]) -> bool
    ensures { result ≡ all_digits word.now }
{
    word.iter().all(|b| b.is_ascii_digit())
}

// Internal: at least one digit, and digits alone.
fn is_number(word: &[u8]) -> bool
    ensures { result ≡ is_number word.now }
{
    !word.is_empty() && all_digits(word)
}

// Internal: a number with one digit more.
#[tactic(auto, unfolding(crate::specs::Numbers::at_most))]
fn with_digit(value: u64, digit: u64, most: u64) -> Result<u64, Fault>
    ensures { result ≡ at_most most (value * 10 + digit) }
{
    match value
        .checked_mul(10)
        .and_then(|tens| tens.checked_add(digit))
    {
        Some(number) if number <= most => Ok(number),
        _ => Err(Fault::TooLarge),
    }
}

// Internal: the number that digits write.
fn decimal(word: &[u8], most: u64) -> Result<u64, Fault>
    requires { all_digits word.now ≡ true }
    ensures { result ≡ at_most most (decimal_from 0 word.now) }
{
    let mut value = 0;
    for b in word {
        value = with_digit(value, u64::from(b - b'0'), most)?;
    }
    Ok(value)
}

// Internal: a word as a number of at most the given one.
#[tactic(auto, unfolding(crate::specs::Numbers::number_of))]
pub fn number_of(word: &[u8], most: u64) -> Result<u64, Fault>
    ensures { result ≡ number_of most word.now }
{
    if is_number(word) {
        decimal(word, most)
    } else {
        Err(Fault::NotANumber)
    }
}
