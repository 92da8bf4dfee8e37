// The checks "Values": the first density of a list that is above jam.
ghost use Rattle.std.specs.Prelude.{◌≡◌};
ghost use Rattle.checks.specs.Values.{FoundAbove};

// Internal: the place, from 0, of the first density above jam.
pub fn first_above(jam: u32, xs: &[u32]) -> Option<usize>
    ensures { FoundAbove jam xs.now result }
{
    xs.iter().position(|x| jam < *x)
}
