// The checks "Lists": the numbers of cells and steps, and the lengths of the ends, of an output and of a cap list.
ghost use Rattle.std.specs.Prelude.{◌≡◌};
ghost use Rattle.checks.specs.Lists.{bad_cells, bad_horizon, bad_ends, bad_output, bad_caps};

use road::Road;

// Internal: 5, n is 0 or above its ceiling.
pub fn bad_cells(n: usize) -> bool
    ensures { result ≡ bad_cells n }
{
    n < 1 || (Road::CELLS as usize) < n
}

// Internal: 6, the horizon is above its ceiling.
pub fn bad_horizon(horizon: u32) -> bool
    ensures { result ≡ bad_horizon horizon }
{
    Road::HORIZON < horizon
}

// Internal: 7, an end list's length is not T.
pub fn bad_ends(horizon: u32, ups: usize, downs: usize) -> bool
    ensures { result ≡ bad_ends horizon ups downs }
{
    ups != horizon as usize || downs != horizon as usize
}

// Internal: 8, an output's length differs from its call's.
pub fn bad_output(expected: usize, given: usize) -> bool
    ensures { result ≡ bad_output expected given }
{
    given != expected
}

// Internal: 20, a cap list's length is not n + 1. Nothing is added to n, which may be the largest number here.
pub fn bad_caps(cells: usize, caps: usize) -> bool
    ensures { result ≡ bad_caps cells caps }
{
    caps == 0 || caps - 1 != cells
}
