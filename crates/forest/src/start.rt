// The start of the search, as the caller names it.
ghost use Rattle.std.specs.Prelude.{◌≡◌};
ghost use Rattle.forest.specs.Operations.{no_start as no_start_of, first_start as first_start_of};

use record::Vertex;
use record::range::out_of_range;

// Rule 14: the start is 0 or above n, except that an empty record takes 0 only.
#[tactic(auto, unfolding(crate::specs::Operations::no_start))]
pub fn no_start(n: usize, start: usize) -> bool
    ensures { result ≡ no_start_of n start }
{
    if n == 0 {
        return start != 0;
    }
    out_of_range(n, start)
}

// The start that a listing takes: terminal 1, and 0 for the empty record.
#[tactic(auto, unfolding(crate::specs::Operations::first_start))]
pub fn first_start(n: usize) -> Vertex
    ensures { result.0 ≡ first_start_of n }
{
    if 0 < n {
        return Vertex(1);
    }
    Vertex(0)
}
