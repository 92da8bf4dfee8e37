// The refusal, and the rule of its table: the checks stand in the call's order of checks, and the first that holds is
// returned (document 01, "Where each refusal is made"; document 02, E7).
#![tactic(auto)]

ghost use Rattle.std.specs.Prelude.{◌≡◌};
ghost use Rattle.refusal.specs.Answer.{number_of, place_of};

// Why a call refuses: a check of the table, in the order of its numbers, with the place where the table gives one.
#[derive(Clone, Copy, PartialEq, Eq)]
pub enum Refusal {
    // 1: the divisor is out of range
    Divisor,
    // 2: a speed is
    Speeds,
    // 3: jam or critical density is
    Densities,
    // 4: free speed times critical density is not what the wave speed takes up
    Balance,
    // 5: the number of cells is out of range
    Cells,
    // 6: the horizon is above its ceiling
    Horizon,
    // 7: an end list has not one density a step
    Ends,
    // 8: an output has another length than its call's
    Output,
    // 9: a cell's density is above jam; which cell, from 1
    Cell(u32),
    // 10: an upstream end is; of which step, from 0
    Upstream(u32),
    // 11: a downstream end is; of which step, from 0
    Downstream(u32),
    // 12: the word is not legal, and the lowest face that offends; or has another length, and the number of faces
    Word(u32),
    // 13: the mode is none
    Mode,
    // 14: an estimate is out of range: the left is 1, the own 2, the right 3
    Estimate(u32),
    // 15: too many cells for a word count
    WordCount,
    // 16: a station's number is bad
    StationNumber,
    // 17: a station's lone speed is no road's density
    StationSpeed,
    // 18: a station's estimate is out of range
    StationDensity,
    // 19: a total would pass the largest
    Totals,
    // 20: a cap list has not one cap a face
    Caps,
}

impl Refusal {
    // The number of the table, from 1.
    pub fn number(self) -> u32
        ensures { result ≡ number_of self }
    {
        match self {
            Refusal::Divisor => 1,
            Refusal::Speeds => 2,
            Refusal::Densities => 3,
            Refusal::Balance => 4,
            Refusal::Cells => 5,
            Refusal::Horizon => 6,
            Refusal::Ends => 7,
            Refusal::Output => 8,
            Refusal::Cell(_) => 9,
            Refusal::Upstream(_) => 10,
            Refusal::Downstream(_) => 11,
            Refusal::Word(_) => 12,
            Refusal::Mode => 13,
            Refusal::Estimate(_) => 14,
            Refusal::WordCount => 15,
            Refusal::StationNumber => 16,
            Refusal::StationSpeed => 17,
            Refusal::StationDensity => 18,
            Refusal::Totals => 19,
            Refusal::Caps => 20,
        }
    }

    // The place that the table reports, 0 where it has none.
    pub fn place(self) -> u32
        ensures { result ≡ place_of self }
    {
        match self {
            Refusal::Cell(place)
            | Refusal::Upstream(place)
            | Refusal::Downstream(place)
            | Refusal::Word(place)
            | Refusal::Estimate(place) => place,
            _ => 0,
        }
    }
}
