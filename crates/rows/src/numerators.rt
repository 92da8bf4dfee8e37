// The rows of the seven modes: the fixed table of signed multipliers, and a row's value in whole numbers.
ghost use Rattle.std.specs.Prelude.{◌≡◌, ◌*◌, ◌≤◌, pos, nat_abs, ◌*ℤ◌};
ghost use Rattle.road.specs.Ceilings.{divisor_ceiling, jam_ceiling};
ghost use Rattle.modes.specs.Codes.{code_of};
ghost use Rattle.rows.specs.Rows.{row_of};
ghost use Rattle.rows.specs.Coefficients.{whole_row_of, whole_rows, applied_to, Sized};

use modes::Mode;
use road::AcceptedRoad;

// A mode's row on a road: what it multiplies left, own and right by, and what it adds.
#[derive(Clone, Copy)]
pub struct WholeRow {
    pub left: i64,
    pub own: i64,
    pub right: i64,
    pub constant: i64,
}

// A row a mode, in the order of their codes. Its columns: p × left, p × own, q × own, q × right, q × C, p × C, q × J.
// A static: a const would be laid on the stack of every call that reads it.
static ROWS: [[i64; 7]; 7] = [
    [0, 0, -1, 1, 0, 0, 0],
    [0, 0, -1, 0, 1, 0, 0],
    [0, 0, 0, 1, -1, 0, 0],
    [0, -1, 0, 0, 0, 1, 0],
    [1, 0, 0, 1, 0, 0, -1],
    [1, 0, 0, 0, 0, -1, 0],
    [1, -1, 0, 0, 0, 0, 0],
];

// Internal: the table's row of a mode.
fn multipliers(mode: Mode) -> [i64; 7]
    ensures { result ≡ row_of (code_of mode) }
{
    ROWS[mode.place()]
}

// Internal: a multiplier of the table times a term.
fn weighted(multiplier: i64, term: i64) -> i64
    requires multiplier_bound { nat_abs multiplier ≤ 1 }
    requires term_bound { nat_abs term ≤ divisor_ceiling * jam_ceiling }
    ensures { result ≡ multiplier *ℤ term }
{
    multiplier * term
}

// Internal: a speed times a density.
fn product(speed: u32, density: u32) -> i64
    requires speed_le_divisor_ceiling { speed ≤ divisor_ceiling }
    requires density_le_jam_ceiling { density ≤ jam_ceiling }
    ensures { result ≡ pos (speed * density) }
{
    let whole = (speed as u64) * (density as u64);
    whole as i64
}

impl WholeRow {
    // Internal: the row of a mode on a road.
    pub fn of(road: AcceptedRoad, mode: Mode) -> WholeRow
        ensures { result ≡ whole_row_of road.road (code_of mode) }
    {
        let r = road.road;
        let [p_left, p_own, q_own, q_right, q_critical, p_critical, q_jam] = multipliers(mode);
        let free = r.free as i64;
        let wave = r.wave as i64;
        WholeRow {
            left: weighted(p_left, free),
            own: r.divisor as i64 + weighted(p_own, free) + weighted(q_own, wave),
            right: weighted(q_right, wave),
            constant: weighted(q_critical, product(r.wave, r.critical))
                + weighted(p_critical, product(r.free, r.critical))
                + weighted(q_jam, product(r.wave, r.jam)),
        }
    }

    // Internal: the row's value, which a foreign word may take below zero: the density after one step, times the divisor.
    pub fn applied(self, left: u32, own: u32, right: u32) -> i64
        requires sized { Sized self }
        requires left_le_jam_ceiling { left ≤ jam_ceiling }
        requires own_le_jam_ceiling { own ≤ jam_ceiling }
        requires right_le_jam_ceiling { right ≤ jam_ceiling }
        ensures { result ≡ applied_to self left own right }
    {
        (left as i64) * self.left
            + (own as i64) * self.own
            + (right as i64) * self.right
            + self.constant
    }
}

// Internal: the rows of all modes. A call works them once, and the table is then read at fixed places only. They are written
// out: by `Mode::ALL.map` the row prediction takes a fifth longer.
pub fn rows_of(road: AcceptedRoad) -> [WholeRow; 7]
    ensures { result ≡ whole_rows road.road }
{
    [
        WholeRow::of(road, Mode::WW),
        WholeRow::of(road, Mode::WL),
        WholeRow::of(road, Mode::LW),
        WholeRow::of(road, Mode::LD),
        WholeRow::of(road, Mode::DW),
        WholeRow::of(road, Mode::DL),
        WholeRow::of(road, Mode::DD),
    ]
}
