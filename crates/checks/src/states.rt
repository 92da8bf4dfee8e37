// The judgement of a state with one end pair, for every call that is given one.
ghost use Rattle.std.specs.Prelude.{◌≡◌, ◌≤◌, IfOk, length};
ghost use Rattle.road.specs.Ceilings.{cells_ceiling};
ghost use Rattle.refusal.specs.Table.{judge};
ghost use Rattle.refusal.specs.Answer.{judged_of};
ghost use Rattle.checks.specs.Checks.{pair_checks};
ghost use Rattle.checks.specs.State.{state_shape_refusal, state_refusal};
ghost use Rattle.checks.specs.Judged.{IsState};

use super::accepted::AcceptedState;
use super::lists::bad_cells;
use super::values::first_above;
use refusal::Refusal;
use road::{AcceptedRoad, Road};

// Internal: checks 1 to 5 and 8, of the road, of the number of cells, and of the call's outputs, which are bad or not. A call
// that has none has no bad one.
#[tactic(auto, unfolding(crate::specs::State::state_shape_refusal, refusal::specs::Table::or_if))]
pub fn judged_shape(road: Road, cells: usize, bad: bool) -> Result<AcceptedRoad, Refusal>
    ensures refusal { judged_of result ≡ state_shape_refusal road cells bad }
    ensures road { IfOk result (λ accepted. accepted.road ≡ road) }
{
    let road = road.judged()?;
    if bad_cells(cells) {
        return Err(Refusal::Cells);
    }
    if bad {
        return Err(Refusal::Output);
    }
    Ok(road)
}

// Internal: checks 9 to 11, once the cells are known to be few, so that a place always fits its 32 bits.
fn judged_pair(road: AcceptedRoad, cells: &[u32], up: u32, down: u32) -> Result<(), Refusal>
    requires { length cells.now ≤ cells_ceiling }
    ensures { judged_of result ≡ judge (pair_checks road.road cells.now up down) }
{
    let jam = road.road.jam;
    if let Some(cell) = first_above(jam, cells) {
        return Err(Refusal::Cell((cell + 1) as u32));
    }
    let up_is_high = jam < up;
    let down_is_high = jam < down;
    if up_is_high {
        return Err(Refusal::Upstream(0));
    }
    if down_is_high {
        return Err(Refusal::Downstream(0));
    }
    Ok(())
}

impl<'a> AcceptedState<'a> {
    // Internal: checks 1 to 5 and 8 to 11.
    pub fn judged(
        road: Road,
        cells: &'a [u32],
        up: u32,
        down: u32,
        bad: bool,
    ) -> Result<AcceptedState<'a>, Refusal>
        ensures refusal { judged_of result ≡ state_refusal road cells.now up down bad }
        ensures state { IfOk result (λ state. IsState state road cells.now up down) }
    {
        let road = judged_shape(road, cells.len(), bad)?;
        judged_pair(road, cells, up, down)?;
        Ok(AcceptedState {
            road,
            cells,
            up,
            down,
        })
    }
}
