// How near the next mode is, for C, Level 3.
ghost use Rattle.welgadou.specs.Parts.{road_of};
ghost use Rattle.welgadou.specs.Rankings.{NearestRanked};

use super::parts::refused;
use road::Road;

// 0, with the cells' numbers in `numbers`, each one's smallest change that alters the word at the same place of `changes`,
// and 0 in `place`; or the refusal's number with its place, and every other output as it was.
pub fn welgadou_nearest(
    divisor: u32,
    free: u32,
    wave: u32,
    jam: u32,
    critical: u32,
    cells: &[u32],
    upstream: u32,
    downstream: u32,
    numbers: &mut [u32],
    changes: &mut [i32],
    place: &mut u32,
) -> u32
    ensures { NearestRanked (road_of divisor free wave jam critical) cells.now upstream downstream numbers.old numbers.new changes.old changes.new place.new result }
{
    let road = Road {
        divisor,
        free,
        wave,
        jam,
        critical,
    };
    match nearest::nearest(road, cells, upstream, downstream, numbers, changes) {
        Ok(()) => {
            *place = 0;
            0
        }
        Err(refusal) => refused(refusal, place),
    }
}
