// Check 12 of the refusal table, and the judgement of a state with a word.
ghost use Rattle.std.specs.Prelude.{◌≡◌, ◌≤◌, [], ◌∷◌, IfOk, length};
ghost use Rattle.road.specs.Ceilings.{cells_ceiling};
ghost use Rattle.refusal.specs.Table.{judge};
ghost use Rattle.refusal.specs.Answer.{judged_of};
ghost use Rattle.words.specs.Judging.{word_check, state_word_refusal};
ghost use Rattle.words.specs.Judged.{IsWord};

use super::accepted::AcceptedWord;
use super::offences::first_offence;
use checks::AcceptedState;
use refusal::Refusal;
use road::Road;

// Internal: check 12, of a word of another length than n+1, whose place is n+1, or one that is not legal, whose place is the
// lowest face that offends. A word of another length is not searched, however long.
#[tactic(auto, using(crate::proofs::WordCheck::other_length, crate::proofs::WordCheck::offence, crate::proofs::WordCheck::no_offence))]
fn judged_word(n: usize, word: &[u8]) -> Result<(), Refusal>
    requires { n ≤ cells_ceiling }
    ensures { judged_of result ≡ judge (word_check n word.now ∷ []) }
{
    if word.len() != n + 1 {
        return Err(Refusal::Word((n + 1) as u32));
    }
    if let Some(face) = first_offence(word) {
        return Err(Refusal::Word(face as u32));
    }
    Ok(())
}

impl<'a> AcceptedWord<'a> {
    // Internal: checks 1 to 5 and 8 to 12, of a call that is given a state and a word. The word is judged only once the cells
    // are known to be few, so that a place always fits its 32 bits.
    pub fn judged(
        road: Road,
        cells: &'a [u32],
        up: u32,
        down: u32,
        word: &'a [u8],
        bad: bool,
    ) -> Result<AcceptedWord<'a>, Refusal>
        ensures refusal { judged_of result ≡ state_word_refusal road cells.now up down word.now bad }
        ensures word { IfOk result (λ accepted. IsWord accepted road cells.now up down word.now) }
    {
        let state = AcceptedState::judged(road, cells, up, down, bad)?;
        judged_word(cells.len(), word)?;
        Ok(AcceptedWord { state, word })
    }
}
