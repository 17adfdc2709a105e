// Where the blocks start in the list of fields.
ghost use Rattle.std.specs.Prelude.{◌≡◌, ◌+◌, ◌-◌, ◌%◌, ◌≤◌, ◌<◌, length, get_or};
ghost use Rattle.record.specs.Record.{unary};
ghost use Rattle.record.specs.Starts.{starts_of};

use super::layout::Layout;
use adjacency::cells::put;

// Where the next part of D ends: with the 64 bits that begin with its first byte, or with D.
fn part_end(i: usize, places: usize) -> usize
    requires { (i < places) × (places ≤ 65536) }
    ensures { (i < result) × ((28 + i) % 8 + (result - i) ≤ 64) × (result ≤ places) }
{
    places.min(8 * ((28 + i) / 8) + 36)
}

// The starts of all blocks, and the end of the last one, by one pass over D: part by part, and in each part from one to
// one. Each one enters the zeros before it as the next start.
#[tactic(auto, using(crate::proofs::Laws::Reading::Filled::filling_steps))]
pub fn fill_starts(layout: &Layout, starts: &mut [u16])
    requires { length starts.old ≡ layout.now.n + 1 }
    ensures { starts.new ≡ starts_of (unary layout.now.bytes.now) }
{
    let places = layout.n + 2 * layout.m;
    let mut i = 0;
    let mut k = 0;
    while i < places {
        let end = part_end(i, places);
        let mut left = bits::fields::read_long(layout.bytes, 28 + i, end - i);
        while left != 0 {
            let h = bits::ones::top(left);
            put(starts, k, end - (h + 1) - k);
            left = bits::ones::without(left, h);
            k += 1;
        }
        i = end;
    }
    put(starts, k, i - k);
}

// The places of D between the one of block v, v counted from 0, and the next.
pub fn span_of(layout: &Layout, v: usize) -> bits::spans::Span
    requires { v < layout.now.n }
    ensures { (result.from ≡ get_or (starts_of (unary layout.now.bytes.now)) v 0 + (v + 1))
        × (result.to ≡ get_or (starts_of (unary layout.now.bytes.now)) (v + 1) 0 + (v + 1)) }
{
    bits::spans::span_from(layout.bytes, 28, layout.n + 2 * layout.m, v + 1)
}
