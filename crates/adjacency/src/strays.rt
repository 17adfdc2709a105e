// Rule 6: a neighbour that is no vertex, or the vertex itself.
ghost use Rattle.std.specs.Prelude.{◌≡◌, ◌+◌, ◌<◌, length};
ghost use Rattle.graph.specs.Graph.{Blocks, block};
ghost use Rattle.adjacency.specs.Places.{any_in, any_place, stray};
ghost use Rattle.adjacency.specs.Arrays.{cut};

use super::cells::get;
use super::lists::Lists;

// Whether such a neighbour stands in block u.
fn stray_in(lists: &Lists, u: usize) -> bool
    requires { u + 1 < length lists.now.starts.now }
    ensures { let g : Blocks = cut lists.now.starts.now lists.now.nbrs.now in result ≡ any_in (stray g u) (block g u) }
{
    let n = lists.starts.len() - 1;
    let from = get(lists.starts, u);
    let end = get(lists.starts, u + 1);
    lists.nbrs[from..end]
        .iter()
        .any(|v| n <= usize::from(*v) || usize::from(*v) == u)
}

// Whether one stands anywhere.
pub fn some_stray(lists: &Lists) -> bool
    ensures { let g : Blocks = cut lists.now.starts.now lists.now.nbrs.now in result ≡ any_place (stray g) g }
{
    for u in 0..lists.starts.len() - 1 {
        if stray_in(lists, u) {
            return true;
        }
    }
    false
}
