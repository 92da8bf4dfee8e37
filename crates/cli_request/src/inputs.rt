// What a text gives to an action: a state with its ends, or all that a forecast takes.
ghost use Rattle.std.specs.Prelude.{◌≡◌, ◌+◌, IfOk, IsSome, IsNone, length, min};
ghost use Rattle.arrayvec.specs.ArrayVec.{array_vec_len};
ghost use Rattle.road.specs.Ceilings.{cells_ceiling, horizon_ceiling};
ghost use Rattle.cli_scenario.specs.Values.{line_of, values_of};

use super::numbers::{CELLS, ENDS, FACES};
use super::refusals::{Lengths, Refused};
use super::{caps, numbers};
use arrayvec::ArrayVec;
use cli_vocabulary::Key;
use forecast::Record;
use refusal::Refusal;
use road::Road;
use scheme::Totals;

// A road with its cells, and the one pair of ends.
#[derive(Drop)]
pub struct State {
    pub road: Road,
    pub cells: ArrayVec<u32, CELLS>,
    pub up: u32,
    pub down: u32,
}

impl State {
    // The state at the start.
    pub fn of(text: &[u8]) -> State
        ensures clipped { array_vec_len result.cells ≡ min (length (values_of Key.Cells text.now)) CELLS }
        ensures cells { array_vec_len result.cells ≡ min (length (values_of Key.Cells text.now)) (cells_ceiling + 1) }
    {
        State::at(text, numbers::list(text, Key::Cells))
    }

    // Other cells on the text's road, between its ends.
    pub fn at(text: &[u8], cells: ArrayVec<u32, CELLS>) -> State
        ensures { result.cells ≡ cells }
    {
        let [up, down]: [u32; 2] = numbers::numbers(text, Key::Pair);
        State {
            road: numbers::road(text),
            cells,
            up,
            down,
        }
    }

    // Why its action is refused.
    pub fn refused(&self, refusal: Refusal) -> Refused
        ensures { result.cells ≡ array_vec_len self.now.cells }
    {
        let cells = self.cells.len();
        Refused {
            cells,
            ..Refused::from(refusal)
        }
    }
}

// What a forecast is given.
#[derive(Drop)]
pub struct Forecast {
    pub road: Road,
    pub cells: ArrayVec<u32, CELLS>,
    pub upstream: ArrayVec<u32, ENDS>,
    pub downstream: ArrayVec<u32, ENDS>,
    pub horizon: u32,
    pub caps: ArrayVec<u32, FACES>,
    pub totals: Totals,
}

impl Forecast {
    pub fn of(text: &[u8]) -> Forecast
        ensures clipped { array_vec_len result.cells ≡ min (length (values_of Key.Cells text.now)) CELLS }
        ensures cells { array_vec_len result.cells ≡ min (length (values_of Key.Cells text.now)) (cells_ceiling + 1) }
        ensures upstream { array_vec_len result.upstream ≡ min (length (values_of Key.Upstream text.now)) (horizon_ceiling + 1) }
        ensures downstream { array_vec_len result.downstream ≡ min (length (values_of Key.Downstream text.now)) (horizon_ceiling + 1) }
        ensures caps { IsSome (line_of Key.Caps text.now) → array_vec_len result.caps ≡ min (length (values_of Key.Caps text.now)) (cells_ceiling + 2) }
        ensures open { IsNone (line_of Key.Caps text.now) → array_vec_len result.caps ≡ min (array_vec_len result.cells + 1) (cells_ceiling + 2) }
    {
        let cells: ArrayVec<u32, CELLS> = numbers::list(text, Key::Cells);
        let [horizon]: [u32; 1] = numbers::numbers(text, Key::Horizon);
        Forecast {
            road: numbers::road(text),
            caps: caps::of(text, &cells),
            cells,
            upstream: numbers::list(text, Key::Upstream),
            downstream: numbers::list(text, Key::Downstream),
            horizon,
            totals: numbers::totals(text),
        }
    }

    // The forecast, with the cells after its last step.
    pub fn made(&self) -> Result<(Record, ArrayVec<u32, CELLS>), Refused>
        ensures { IfOk result (λ p. array_vec_len p.1 ≡ array_vec_len self.now.cells) }
    {
        let mut out = numbers::filled(0, self.cells.len());
        let record = forecast::forecast(
            self.road,
            &self.cells,
            &self.upstream,
            &self.downstream,
            self.horizon,
            &self.caps,
            self.totals,
            &mut out,
        )
        .map_err(|refusal| self.refused(refusal))?;
        Ok((record, out))
    }

    // Why its action is refused.
    pub fn refused(&self, refusal: Refusal) -> Refused
        ensures cells { result.cells ≡ array_vec_len self.now.cells }
        ensures caps { result.caps ≡ array_vec_len self.now.caps }
    {
        Refused {
            refusal,
            cells: self.cells.len(),
            caps: self.caps.len(),
            lengths: Some(Lengths {
                upstream: self.upstream.len(),
                downstream: self.downstream.len(),
                horizon: self.horizon,
            }),
        }
    }
}
