// The ceilings: associated constants of the road's type, so that a buyer's program reads them and repeats none.
ghost use Rattle.std.specs.Prelude.{◌≡◌};
ghost use Rattle.road.specs.Ceilings.{cells_ceiling, horizon_ceiling, divisor_ceiling, jam_ceiling, count_ceiling};

use super::Road;

impl Road {
    pub const CELLS: u32 = 256;

    pub const HORIZON: u32 = 1440;

    pub const DIVISOR: u32 = 4096;

    pub const JAM: u32 = 1_000_000;

    pub const COUNT: u32 = 40;
}

// Internal: the largest number of cells. Each constant has such a function, with the equation to its definition, so that a
// moved constant is refused here.
pub fn cells_ceiling() -> u32
    ensures { result ≡ cells_ceiling }
{
    Road::CELLS
}

// Internal: the largest horizon.
pub fn horizon_ceiling() -> u32
    ensures { result ≡ horizon_ceiling }
{
    Road::HORIZON
}

// Internal: the largest divisor.
pub fn divisor_ceiling() -> u32
    ensures { result ≡ divisor_ceiling }
{
    Road::DIVISOR
}

// Internal: the largest jam density.
pub fn jam_ceiling() -> u32
    ensures { result ≡ jam_ceiling }
{
    Road::JAM
}

// Internal: the largest number of cells of a word count.
pub fn count_ceiling() -> u32
    ensures { result ≡ count_ceiling }
{
    Road::COUNT
}
