// The settling run: whether the road settles with one end pair, and the state it settles to.
ghost use Rattle.std.specs.Prelude.{◌≡◌, IfOk};
ghost use Rattle.refusal.specs.Answer.{judged_of, answer_of};
ghost use Rattle.forecast.specs.Settle.{settle_refusal, Settles};

use super::copying::copy;
use super::values::judged_values;
use flux::Pace;
use refusal::Refusal;
use road::{AcceptedRoad, Road};
use scheme::Settled;

// Internal: checks 1 to 6, 8, 20 and 9 to 11.
#[tactic(auto, unfolding(crate::specs::Settle::settle_refusal, refusal::specs::Table::or_if))]
fn judged(
    road: Road,
    caps: &[u32],
    cells: &[u32],
    up: u32,
    down: u32,
    horizon: u32,
    out: usize,
) -> Result<AcceptedRoad, Refusal>
    ensures refusal { judged_of result ≡ settle_refusal road caps.now cells.now up down horizon out }
    ensures road { IfOk result (λ accepted. accepted.road ≡ road) }
{
    let road = road.judged()?;
    if checks::bad_cells(cells.len()) {
        return Err(Refusal::Cells);
    }
    if checks::bad_horizon(horizon) {
        return Err(Refusal::Horizon);
    }
    if checks::bad_output(cells.len(), out) {
        return Err(Refusal::Output);
    }
    if checks::bad_caps(cells.len(), caps.len()) {
        return Err(Refusal::Caps);
    }
    judged_values(road, cells, &[up], &[down])?;
    Ok(road)
}

// No face moves more than its cap in a step. A step is still where it keeps every density. Settled, with the least k below
// the horizon such that step k+1 is still, and the output holds the state after k steps; or unsettled, with the horizon,
// and the output holds the state after all of them. Either way it holds what a forecast over the horizon with the one pair
// in every step would leave. Refused, it keeps what it held.
pub fn settle(
    road: Road,
    cells: &[u32],
    up: u32,
    down: u32,
    horizon: u32,
    caps: &[u32],
    out: &mut [u32],
) -> Result<Settled, Refusal>
    ensures { Settles road caps.now cells.now up down horizon out.old out.new (answer_of result) }
{
    let road = judged(road, caps, cells, up, down, horizon, out.len())?;
    copy(cells, out);
    Ok(scheme::settle(Pace::of(road), caps, out, up, down, horizon))
}
