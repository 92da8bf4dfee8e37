// A state that was judged and found right: what every function below the judgement takes, so that none asks it again.
ghost use Rattle.checks.specs.State.{StateChecked};

use road::AcceptedRoad;

// A road's cells with one end pair, all of them judged.
#[derive(Clone, Copy)]
pub struct AcceptedState<'a> {
    pub road: AcceptedRoad,
    pub cells: &'a [u32],
    pub up: u32,
    pub down: u32,
    pub ghost checked: { StateChecked road.road cells.now up down },
}
