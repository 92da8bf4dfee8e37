// A road that was judged and found right: what every function below the judgement takes, so that none asks it again.
ghost use Rattle.road.specs.Judgement.{Accepted};

use super::Road;

// A road with the proof that document 01 allows it.
#[derive(Clone, Copy)]
pub struct AcceptedRoad {
    pub road: Road,
    pub ghost accepted: { Accepted road },
}
