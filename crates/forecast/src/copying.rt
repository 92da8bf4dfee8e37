// The cells handed over from list to list.
ghost use Rattle.std.specs.Prelude.{◌≡◌, ◌≤◌, length};
ghost use Rattle.road.specs.Ceilings.{jam_ceiling};
ghost use Rattle.scheme.specs.Sums.{Below};

// The least power of two above the ceiling of jam.
const RANGE: u32 = 1_048_576;

// Internal: a density, as a number within that range. So a copy is not a plain one, which would be compiled to a call of
// memcpy: this library calls no other, not even C's.
fn density(x: u32) -> u32
    requires { x ≤ jam_ceiling }
    ensures { result ≡ x }
{
    x % RANGE
}

// Internal: the output then holds the cells. Not over pairs of the two lists: no proof knows what a loop over them wrote.
#[tactic(auto, using(crate::proofs::Copied::begins, crate::proofs::Copied::turns, crate::proofs::Copied::ends))]
pub fn copy(cells: &[u32], out: &mut [u32])
    requires below { Below jam_ceiling cells.now }
    requires long { length out.old ≡ length cells.now }
    ensures { out.new ≡ cells.now }
{
    for (i, x) in cells.iter().enumerate() {
        out[i] = density(*x);
    }
}
