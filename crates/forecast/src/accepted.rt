// A forecast's input that was judged and found right, up to its totals.
ghost use Rattle.std.specs.Prelude.{length};
ghost use Rattle.forecast.specs.Forecast.{InputChecked};

use road::AcceptedRoad;

// The road, a cap for each face, the cells and the end lists, all of them judged.
#[derive(Clone, Copy)]
pub struct AcceptedInput<'a> {
    pub road: AcceptedRoad,
    pub caps: &'a [u32],
    pub cells: &'a [u32],
    pub upstream: &'a [u32],
    pub downstream: &'a [u32],
    pub horizon: u32,
    pub ghost checked: { InputChecked road.road caps.now cells.now upstream.now downstream.now horizon (length cells.now) },
}
