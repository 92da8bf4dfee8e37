// What stands beyond a cell: the next one, or the ghost cell past the last.
ghost use Rattle.std.specs.Prelude.{◌≡◌, drop};
ghost use Rattle.scheme.specs.Advance.{ahead};

// Internal: the density at i, or the ghost cell's past the last.
#[tactic(auto, using(crate::proofs::Ahead::ahead_at, crate::proofs::Ahead::ahead_past))]
pub fn density_at(cells: &[u32], i: usize, down: u32) -> u32
    ensures { result ≡ ahead down (drop i cells.now) }
{
    cells.get(i).copied().unwrap_or(down)
}
