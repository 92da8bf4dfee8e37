// The C form of the public calls: one function a public call, and for a station one a kind, which `welgadou_c` exports. The
// road goes in as five numbers; the result is 0 or the refusal's number, and further results go through references, the
// seven counts through one reference to exactly seven. A call whose parameters change gets the next number in its name, so
// that a program with the declaration of before does not link.
#![tactic(auto)]

mod ceilings;
mod level1;
mod level2;
mod parts;
mod rankings;
mod stations;
mod versions;

// The calls above take them by their contracts; the archive exports the same functions.
pub use ceilings::{
    welgadou_cells_ceiling, welgadou_count_ceiling, welgadou_divisor_ceiling,
    welgadou_horizon_ceiling, welgadou_jam_ceiling,
};
pub use level1::{welgadou_forecast_3, welgadou_settle_2};
pub use level2::{
    welgadou_candidate_2, welgadou_count, welgadou_fit, welgadou_read, welgadou_rows,
};
pub use rankings::welgadou_nearest;
pub use stations::{welgadou_station_density, welgadou_station_flow, welgadou_station_speed};
pub use versions::welgadou_version;
