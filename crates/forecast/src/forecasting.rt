// The forecast: the densities after T steps, the units entered and left, and the totals of these since commissioning.
ghost use Rattle.std.specs.Prelude.{◌≡◌, true, IfOk, MatchOption, length};
ghost use Rattle.refusal.specs.Answer.{judged_of, answer_of};
ghost use Rattle.scheme.specs.Calls.{Ran};
ghost use Rattle.forecast.specs.Forecast.{input_refusal, increased, total_check, Fits, Forecasts};
ghost use Rattle.forecast.specs.Input.{IsInput};

use super::accepted::AcceptedInput;
use super::copying::copy;
use super::values::judged_values;
use flux::Pace;
use refusal::Refusal;
use road::Road;
use scheme::Totals;

// The room of a working list.
const CELLS: usize = Road::CELLS as usize;

// What an accepted forecast hands back: the units of its own steps, and the totals since commissioning with these in them.
#[derive(Clone, Copy)]
pub struct Record {
    pub own: Totals,
    pub totals: Totals,
}

// Internal: the totals so far increased by so many units, or none where a total would pass the largest, that of 64 bits.
fn increased(totals: Totals, own: Totals) -> Option<Totals>
    ensures { MatchOption result ((total_check totals own).condition ≡ true) (λ sums. Fits totals own × (sums ≡ increased totals own)) }
{
    let entered = totals.entered.checked_add(own.entered)?;
    let left = totals.left.checked_add(own.left)?;
    Some(Totals { entered, left })
}

impl<'a> AcceptedInput<'a> {
    // Internal: checks 1 to 8, 20 and 9 to 11, all that can be judged before the run.
    #[tactic(auto, unfolding(crate::specs::Forecast::input_refusal, refusal::specs::Table::or_if))]
    fn judged(
        road: Road,
        caps: &'a [u32],
        cells: &'a [u32],
        upstream: &'a [u32],
        downstream: &'a [u32],
        horizon: u32,
        out: usize,
    ) -> Result<AcceptedInput<'a>, Refusal>
        ensures refusal { judged_of result ≡ input_refusal road caps.now cells.now upstream.now downstream.now horizon out }
        ensures input { IfOk result (λ input. IsInput input road caps.now cells.now upstream.now downstream.now horizon) }
    {
        let road = road.judged()?;
        if checks::bad_cells(cells.len()) {
            return Err(Refusal::Cells);
        }
        if checks::bad_horizon(horizon) {
            return Err(Refusal::Horizon);
        }
        if checks::bad_ends(horizon, upstream.len(), downstream.len()) {
            return Err(Refusal::Ends);
        }
        if checks::bad_output(cells.len(), out) {
            return Err(Refusal::Output);
        }
        if checks::bad_caps(cells.len(), caps.len()) {
            return Err(Refusal::Caps);
        }
        judged_values(road, cells, upstream, downstream)?;
        Ok(AcceptedInput {
            road,
            caps,
            cells,
            upstream,
            downstream,
            horizon,
        })
    }

    // Internal: the list then holds the cells after the last step.
    fn run_in(self, list: &mut [u32]) -> Totals
        requires { length list.old ≡ length self.cells.now }
        ensures { Ran self.entry.road.road self.entry.caps.now self.entry.upstream.now self.entry.downstream.now self.entry.cells.now list.new result }
    {
        copy(self.cells, list);
        scheme::run(
            Pace::of(self.road),
            self.caps,
            list,
            self.upstream,
            self.downstream,
        )
    }

    // Internal: the forecast where a total may pass the largest. Its own units are known after the run alone, and check 19
    // leaves the output as it was: the run is made in a working list.
    fn forecast_aside(self, totals: Totals, out: &mut [u32]) -> Result<Record, Refusal>
        requires { length out.old ≡ length self.cells.now }
        ensures { Forecasts self.entry.road.road self.entry.caps.now self.entry.cells.now self.entry.upstream.now self.entry.downstream.now self.entry.horizon totals out.old out.new (answer_of result) }
    {
        // Not of zeros: these would be compiled to a call of memset.
        let mut work = [self.road.road.jam; CELLS];
        let work = &mut work[..self.cells.len()];
        let own = self.run_in(work);
        let Some(totals) = increased(totals, own) else {
            return Err(Refusal::Totals);
        };
        copy(work, out);
        Ok(Record { own, totals })
    }
}

// The output holds the cells after the horizon's steps, pair t of the two end lists serving step t+1 and no face moving
// more than its cap in a step, face 0's first; the record has the units that entered and left in them, and the totals so
// far increased by these. Refused, the output keeps what it held.
pub fn forecast(
    road: Road,
    cells: &[u32],
    upstream: &[u32],
    downstream: &[u32],
    horizon: u32,
    caps: &[u32],
    totals: Totals,
    out: &mut [u32],
) -> Result<Record, Refusal>
    ensures { Forecasts road caps.now cells.now upstream.now downstream.now horizon totals out.old out.new (answer_of result) }
{
    let input = AcceptedInput::judged(road, caps, cells, upstream, downstream, horizon, out.len())?;
    // No face moves more than the ceiling of jam in a step: where both totals have room for that, check 19 cannot hold.
    let most = horizon as u64 * Road::JAM as u64;
    let room = Totals {
        entered: most,
        left: most,
    };
    if increased(totals, room).is_none() {
        return input.forecast_aside(totals, out);
    }
    let own = input.run_in(out);
    let entered = totals.entered + own.entered;
    let left = totals.left + own.left;
    Ok(Record {
        own,
        totals: Totals { entered, left },
    })
}
