// The ceilings for C, so that a C program repeats none.
ghost use Rattle.std.specs.Prelude.{◌≡◌};
ghost use Rattle.road.specs.Ceilings.{cells_ceiling, horizon_ceiling, divisor_ceiling, jam_ceiling, count_ceiling};

// The most cells of a road.
#[unsafe(no_mangle)]
pub extern "C" fn welgadou_cells_ceiling() -> u32
    ensures { result ≡ cells_ceiling }
{
    welgadou::welgadou_cells_ceiling()
}

// The most steps of a forecast or settling run.
#[unsafe(no_mangle)]
pub extern "C" fn welgadou_horizon_ceiling() -> u32
    ensures { result ≡ horizon_ceiling }
{
    welgadou::welgadou_horizon_ceiling()
}

// The largest divisor.
#[unsafe(no_mangle)]
pub extern "C" fn welgadou_divisor_ceiling() -> u32
    ensures { result ≡ divisor_ceiling }
{
    welgadou::welgadou_divisor_ceiling()
}

// The largest jam density.
#[unsafe(no_mangle)]
pub extern "C" fn welgadou_jam_ceiling() -> u32
    ensures { result ≡ jam_ceiling }
{
    welgadou::welgadou_jam_ceiling()
}

// The most cells of a word count.
#[unsafe(no_mangle)]
pub extern "C" fn welgadou_count_ceiling() -> u32
    ensures { result ≡ count_ceiling }
{
    welgadou::welgadou_count_ceiling()
}
