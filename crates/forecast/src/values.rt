// The judgement of the densities, of both calls: those of the cells, and of the ends.
ghost use Rattle.std.specs.Prelude.{◌≡◌, ◌≤◌, length};
ghost use Rattle.road.specs.Ceilings.{cells_ceiling, horizon_ceiling};
ghost use Rattle.refusal.specs.Table.{judge};
ghost use Rattle.refusal.specs.Answer.{judged_of};
ghost use Rattle.checks.specs.Checks.{value_checks};

use refusal::Refusal;
use road::AcceptedRoad;

// Internal: checks 9 to 11, once the lists are known to be short, so that a place always fits its 32 bits.
pub fn judged_values(
    road: AcceptedRoad,
    cells: &[u32],
    upstream: &[u32],
    downstream: &[u32],
) -> Result<(), Refusal>
    requires few { length cells.now ≤ cells_ceiling }
    requires up_short { length upstream.now ≤ horizon_ceiling }
    requires down_short { length downstream.now ≤ horizon_ceiling }
    ensures { judged_of result ≡ judge (value_checks road.road cells.now upstream.now downstream.now) }
{
    let jam = road.road.jam;
    if let Some(cell) = checks::first_above(jam, cells) {
        return Err(Refusal::Cell((cell + 1) as u32));
    }
    if let Some(up) = checks::first_above(jam, upstream) {
        return Err(Refusal::Upstream(up as u32));
    }
    if let Some(down) = checks::first_above(jam, downstream) {
        return Err(Refusal::Downstream(down as u32));
    }
    Ok(())
}
