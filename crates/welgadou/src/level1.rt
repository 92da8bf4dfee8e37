// Level 1 for C: forecast and settling run.
ghost use Rattle.welgadou.specs.Parts.{road_of, totals_of};
ghost use Rattle.welgadou.specs.Level1.{Forecasted, SettledRun};

use super::parts::refused;
use road::Road;
use scheme::Totals;

// 0, with the cells after the horizon's steps in `out`, their units in `entered` and `left`, both totals increased by these
// and 0 in `place`; or the refusal's number with its place, and every other output as it was.
pub fn welgadou_forecast_3(
    divisor: u32,
    free: u32,
    wave: u32,
    jam: u32,
    critical: u32,
    cells: &[u32],
    upstream: &[u32],
    downstream: &[u32],
    horizon: u32,
    caps: &[u32],
    out: &mut [u32],
    entered: &mut u64,
    left: &mut u64,
    total_entered: &mut u64,
    total_left: &mut u64,
    place: &mut u32,
) -> u32
    ensures { Forecasted (road_of divisor free wave jam critical) caps.now cells.now upstream.now downstream.now horizon out.old out.new entered.old entered.new left.old left.new (totals_of total_entered.old total_left.old) (totals_of total_entered.new total_left.new) place.new result }
{
    let road = Road {
        divisor,
        free,
        wave,
        jam,
        critical,
    };
    let totals = Totals {
        entered: *total_entered,
        left: *total_left,
    };
    match forecast::forecast(
        road, cells, upstream, downstream, horizon, caps, totals, out,
    ) {
        Ok(record) => {
            *entered = record.own.entered;
            *left = record.own.left;
            *total_entered = record.totals.entered;
            *total_left = record.totals.left;
            *place = 0;
            0
        }
        Err(refusal) => refused(refusal, place),
    }
}

// 0, with the state in `out`, 1 in `settled` where the run settled and 0 where not, the steps made in `steps` and 0 in
// `place`; or the refusal's number with its place, and every other output as it was.
pub fn welgadou_settle_2(
    divisor: u32,
    free: u32,
    wave: u32,
    jam: u32,
    critical: u32,
    cells: &[u32],
    upstream: u32,
    downstream: u32,
    horizon: u32,
    caps: &[u32],
    out: &mut [u32],
    settled: &mut u32,
    steps: &mut u32,
    place: &mut u32,
) -> u32
    ensures { SettledRun (road_of divisor free wave jam critical) caps.now cells.now upstream downstream horizon out.old out.new settled.old settled.new steps.old steps.new place.new result }
{
    let road = Road {
        divisor,
        free,
        wave,
        jam,
        critical,
    };
    match forecast::settle(road, cells, upstream, downstream, horizon, caps, out) {
        Ok(run) => {
            *settled = u32::from(run.settled);
            *steps = run.steps;
            *place = 0;
            0
        }
        Err(refusal) => refused(refusal, place),
    }
}
