// Rules 6 and 8 of a graph in two arrays.
ghost use Rattle.std.specs.Prelude.{◌≡◌, ◌+◌, length};
ghost use Rattle.graph.specs.Graph.{Blocks};
ghost use Rattle.adjacency.specs.Arrays.{cut};
ghost use Rattle.record.specs.Answers.{verdict};
ghost use Rattle.record.specs.Operations.{check_graph};

use super::Refusal;
use adjacency::lists::Lists;
use adjacency::reverse::all_mutual;
use adjacency::strays::some_stray;

// Both at once; after a no, the first broken one. The last two slices are room: a number for each place, and for each
// terminal.
pub fn try_rules(lists: &Lists, reverse: &mut [u16], next: &mut [u16]) -> Result<(), Refusal>
    requires { (length reverse.old ≡ length lists.now.nbrs.now) × (length next.old + 1 ≡ length lists.now.starts.now) }
    ensures { let g : Blocks = cut lists.now.starts.now lists.now.nbrs.now in verdict result ≡ check_graph g }
{
    // a copy, which stays in registers while cells are written
    let lists = *lists;
    if all_mutual(&lists, reverse, next) {
        Ok(())
    } else if some_stray(&lists) {
        Err(Refusal::StrayNeighbour)
    } else {
        Err(Refusal::OneSidedWire)
    }
}
