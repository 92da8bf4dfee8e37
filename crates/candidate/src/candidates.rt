// Candidate prediction: one row tried on estimates, for a filter that does not know its cell's mode.
ghost use Rattle.std.specs.Prelude.{◌≡◌, IfOk};
ghost use Rattle.refusal.specs.Answer.{answer_of, judged_of};
ghost use Rattle.modes.specs.Codes.{code_of};
ghost use Rattle.candidate.specs.Candidate.{row_for, applied, bad_estimate, candidate_refusal, Candidates};

use modes::Mode;
use refusal::Refusal;
use road::{AcceptedRoad, Road};
use rows::WholeRow;

// A mode's row for a road: three coefficients and a constant, each exactly the whole number. One generic row with `WholeRow`
// would be no plainer: the two share no function, since a sum of floats is rounded at each step and one of integers bounded.
#[derive(Clone, Copy)]
pub struct CandidateRow {
    pub left: f64,
    pub own: f64,
    pub right: f64,
    pub constant: f64,
}

// What an accepted candidate prediction gives: the predicted numerator, the density after one step times the divisor.
#[derive(Clone, Copy)]
pub struct CandidateResult {
    pub numerator: f64,
}

impl CandidateRow {
    // Internal: the row of a mode on an accepted road. Its numbers are small enough that no float is rounded.
    pub fn of(road: AcceptedRoad, mode: Mode) -> CandidateRow
        ensures { result ≡ row_for road.road (code_of mode) }
    {
        let row = WholeRow::of(road, mode);
        CandidateRow {
            left: row.left as f64,
            own: row.own as f64,
            right: row.right as f64,
            constant: row.constant as f64,
        }
    }

    // Internal: the row applied to three estimates, each operation rounded once, in the order of document 01.
    pub fn applied(self, left: f64, own: f64, right: f64) -> f64
        ensures { result ≡ applied self left own right }
    {
        left * self.left + own * self.own + right * self.right + self.constant
    }
}

// Internal: 14, an estimate that is not a number, below 0 or above J; a station's 18 is the same test. The sign of a zero
// does not count.
#[tactic(auto, using(crate::proofs::Tests::nan_differs))]
pub fn bad_estimate(jam: u32, x: f64) -> bool
    ensures { result ≡ bad_estimate jam x }
{
    x.is_nan() || x < 0.0 || f64::from(jam) < x
}

// Internal: the mode's row, or the first of checks 1 to 4, 13 and 14 that refuses the call. The mode is any byte, as the public
// call promises: 13 judges it.
#[tactic(auto, unfolding(crate::specs::Candidate::candidate_refusal, refusal::specs::Table::or_if))]
fn judged(road: Road, mode: u8, left: f64, own: f64, right: f64) -> Result<CandidateRow, Refusal>
    ensures refusal { judged_of result ≡ candidate_refusal road mode left own right }
    ensures row { IfOk result (λ row. row ≡ row_for road mode) }
{
    let road = road.judged()?;
    let mode = Mode::try_from(mode)?;
    let jam = road.road.jam;
    if bad_estimate(jam, left) {
        return Err(Refusal::Estimate(1));
    }
    if bad_estimate(jam, own) {
        return Err(Refusal::Estimate(2));
    }
    if bad_estimate(jam, right) {
        return Err(Refusal::Estimate(3));
    }
    Ok(CandidateRow::of(road, mode))
}

// The numerator that the mode's row predicts from three estimates. Where all three are whole it is the whole row's
// value, exactly. It is never −0.0.
pub fn candidate(
    road: Road,
    mode: u8,
    left: f64,
    own: f64,
    right: f64,
) -> Result<CandidateResult, Refusal>
    ensures { Candidates road mode left own right (answer_of result) }
{
    let row = judged(road, mode, left, own, right)?;
    Ok(CandidateResult {
        numerator: row.applied(left, own, right),
    })
}
