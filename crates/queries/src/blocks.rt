// The marks of one block: k bits from bit `from` of a section on.
ghost use Rattle.std.specs.Prelude.{◌≡◌, ◌+◌, ◌*◌, ◌≤◌, take, drop};
ghost use Rattle.bits.specs.Bits.{count, select};
ghost use Rattle.bits.specs.Spans.{LoneOf};
ghost use Rattle.queries.specs.View.{section_of};

use super::indexed::Indexed;
use bits::spans::Lone;
use forest::lengths::mark_bytes;

// How many ones E has in the block.
pub fn count_children(i: &Indexed, from: usize, k: usize) -> usize
    requires { from + k ≤ i.now.layout.n + 2 * i.now.layout.m }
    ensures { result ≡ count (take k (drop from (section_of i.now.layout.n i.now.layout.m i.now.index.now 0))) }
{
    bits::rank(i.index, from, k, k)
}

// The place in the block, from 1, of E's j-th one; 0 where there are fewer.
pub fn nth_child(i: &Indexed, from: usize, k: usize, j: usize) -> usize
    requires { (from + k ≤ i.now.layout.n + 2 * i.now.layout.m) × (1 ≤ j) }
    ensures { result ≡ select (take k (drop from (section_of i.now.layout.n i.now.layout.m i.now.index.now 0))) j }
{
    bits::spans::nth_from(i.index, from, k, j)
}

// P's only one in the block.
pub fn lone_parent(i: &Indexed, from: usize, k: usize) -> Lone
    requires { from + k ≤ i.now.layout.n + 2 * i.now.layout.m }
    ensures { LoneOf (take k (drop from (section_of i.now.layout.n i.now.layout.m i.now.index.now 1))) result }
{
    bits::spans::lone_from(i.index, 8 * mark_bytes(i.layout.n, i.layout.m) + from, k)
}
