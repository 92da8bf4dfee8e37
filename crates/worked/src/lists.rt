// Lists of one value, as long as the ceilings and one beyond, and so much of a list as is lent. Each list is a function of its
// own since its promise is: the length, by the ceiling that it goes beyond, which a generic one could not name.
ghost use Rattle.std.specs.Prelude.{◌≡◌, ◌+◌, length, min};
ghost use Rattle.road.specs.Ceilings.{cells_ceiling, horizon_ceiling};

use road::Road;

pub const CELLS: usize = Road::CELLS as usize + 1;

pub const ENDS: usize = Road::HORIZON as usize + 1;

const FACES: usize = CELLS + 1;

// One cell more than the ceiling.
pub fn cells(density: u32) -> [u32; CELLS]
    ensures { cells_ceiling + 1 ≡ length result }
{
    [density; CELLS]
}

// One end more than the ceiling.
pub fn ends(density: u32) -> [u32; ENDS]
    ensures { horizon_ceiling + 1 ≡ length result }
{
    [density; ENDS]
}

// One letter more than the ceiling of cells has faces.
pub fn codes() -> [u8; FACES]
    ensures { cells_ceiling + 2 ≡ length result }
{
    [7u8; FACES]
}

// One cap more than the ceiling of cells has faces.
pub fn caps(cap: u32) -> [u32; FACES]
    ensures { cells_ceiling + 2 ≡ length result }
{
    [cap; FACES]
}

// So much of a list, or all of it.
pub fn first<T>(xs: &mut [T], n: usize) -> &mut [T]
    ensures { length result.now ≡ min n (length xs.old) }
{
    let k = n.min(xs.len());
    &mut xs[..k]
}
