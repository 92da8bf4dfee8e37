// The lowest face of a word that offends.
ghost use Rattle.std.specs.Prelude.{◌≡◌};
ghost use Rattle.words.specs.Words.{illegal_pair, offends};
ghost use Rattle.words.specs.Offence.{FoundOffence};

use flux::Letter;

// The letters' codes, which a word is made of: its bytes are the C interface.
const W: u8 = Letter::W as u8;

const L: u8 = Letter::L as u8;

const D: u8 = Letter::D as u8;

// Internal: whether no two neighbouring faces have these letters: W followed by D, L followed by L.
#[tactic(auto, unfolding(crate::specs::Words::illegal_pair))]
fn is_illegal(s: u8, t: u8) -> bool
    ensures { result ≡ illegal_pair s t }
{
    (s == W && t == D) || (s == L && t == L)
}

// Internal: whether a face offends, after the letter before it: by an unknown code, or as the second of an illegal pair. With
// `||` here the row prediction takes a seventh longer.
#[tactic(auto, unfolding(crate::specs::Words::offends))]
fn offends(before: u8, own: u8) -> bool
    ensures { result ≡ offends before own }
{
    (D < own) | is_illegal(before, own)
}

// Internal: the lowest face that offends. Any letter may follow D, so the first face stands as if after D.
#[tactic(auto, using(crate::proofs::OffenceLoop::found, crate::proofs::OffenceLoop::turns, crate::proofs::OffenceLoop::ends))]
pub fn first_offence(word: &[u8]) -> Option<usize>
    ensures { FoundOffence word.now result }
{
    let mut before = D;
    for (face, own) in word.iter().enumerate() {
        if offends(before, *own) {
            return Some(face);
        }
        before = *own;
    }
    None
}
