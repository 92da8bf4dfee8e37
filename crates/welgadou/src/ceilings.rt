// The ceilings for C, so that a C program repeats none.
ghost use Rattle.std.specs.Prelude.{◌≡◌};
ghost use Rattle.road.specs.Ceilings.{cells_ceiling, horizon_ceiling, divisor_ceiling, jam_ceiling, count_ceiling};

// The most cells of a road.
pub fn welgadou_cells_ceiling() -> u32
    ensures { result ≡ cells_ceiling }
{
    road::cells_ceiling()
}

// The most steps of a forecast or settling run.
pub fn welgadou_horizon_ceiling() -> u32
    ensures { result ≡ horizon_ceiling }
{
    road::horizon_ceiling()
}

// The largest divisor.
pub fn welgadou_divisor_ceiling() -> u32
    ensures { result ≡ divisor_ceiling }
{
    road::divisor_ceiling()
}

// The largest jam density.
pub fn welgadou_jam_ceiling() -> u32
    ensures { result ≡ jam_ceiling }
{
    road::jam_ceiling()
}

// The most cells of a word count.
pub fn welgadou_count_ceiling() -> u32
    ensures { result ≡ count_ceiling }
{
    road::count_ceiling()
}
