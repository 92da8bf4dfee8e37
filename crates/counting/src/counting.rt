// The word count: how many legal words there are for a number of cells.
ghost use Rattle.std.specs.Prelude.{◌≡◌, ◌+◌, ◌^◌, ◌<◌, ◌≤◌};
ghost use Rattle.refusal.specs.Answer.{answer_of, judged_of};
ghost use Rattle.road.specs.Ceilings.{count_ceiling};
ghost use Rattle.counting.specs.WordCount.{word_count};
ghost use Rattle.counting.specs.Count.{count_refusal, CountsWords};

use refusal::Refusal;
use road::Road;

// A count of legal words.
#[derive(Clone, Copy)]
pub struct WordCount {
    pub words: u64,
}

// How many legal words of one length end in each letter.
#[derive(Clone, Copy)]
struct Endings {
    w: u64,
    l: u64,
    d: u64,
}

impl Endings {
    // Internal: how many words of one letter more end in each. W follows every letter, L all but L, D all but W.
    fn longer(self) -> Endings
        requires { self.w + self.l + self.d < 2 ^ 64 }
        ensures w { result.w ≡ self.w + self.l + self.d }
        ensures l { result.l ≡ self.w + self.d }
        ensures d { result.d ≡ self.l + self.d }
    {
        Endings {
            w: self.w + self.l + self.d,
            l: self.w + self.d,
            d: self.l + self.d,
        }
    }
}

// Internal: the words of one letter more than there are cells. Up to the ceiling every sum fits 64 bits.
#[tactic(auto, using(crate::proofs::Turning::begins, crate::proofs::Turning::sum_small, crate::proofs::Turning::turns, crate::proofs::Turning::ends))]
fn counted(cells: u32) -> u64
    requires { cells ≤ count_ceiling }
    ensures { result ≡ word_count cells }
{
    let mut words = Endings { w: 1, l: 1, d: 1 };
    for _ in 0..cells {
        words = words.longer();
    }
    words.w + words.l + words.d
}

// Internal: check 15, the count's only one.
#[tactic(auto, unfolding(crate::specs::Count::count_refusal, refusal::specs::Table::or_if))]
fn judged(cells: u32) -> Result<(), Refusal>
    ensures { judged_of result ≡ count_refusal cells }
{
    if Road::COUNT < cells {
        return Err(Refusal::WordCount);
    }
    Ok(())
}

// The number of legal words of one letter more than there are cells; refused above the ceiling.
pub fn count(cells: u32) -> Result<WordCount, Refusal>
    ensures { CountsWords cells (answer_of result) }
{
    judged(cells)?;
    Ok(WordCount {
        words: counted(cells),
    })
}
