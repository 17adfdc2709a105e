// Lowpoints: for each vertex the least visit number that it and the vertices below it reach by a wire other than the
// way back to the parent. On the way the way back itself is found: the first mention of the parent. All of it holds for
// any forest that the work slice shows.
ghost use Rattle.std.specs.Prelude.{◌≡◌, ◌+◌, ◌*◌, ◌<◌, length, get_or};
ghost use Rattle.forest.specs.Steps.{Room};
ghost use Rattle.forest.specs.Lows.{LowStep, OwnLow, Lowers, LiftsOne, Searches, Lifts};
ghost use Rattle.forest.specs.Graphs.{held};

use super::graphs::Graph;
use adjacency::cells::get;

// 1 + the least number so far, and the bit of the way back where it is passed.
#[derive(Clone, Copy)]
pub struct Low {
    pub low: u16,
    pub back: Option<u16>,
}

// The place p of vertex c is looked at.
fn next_low(g: &Graph, work: &[u16], c: usize, up: usize, p: usize, so_far: Low) -> Low
    requires { (Room g.now.n g.now.s work.now) × (c < g.now.n) × (p < length g.now.nbrs.now) }
    ensures { let v = get_or g.now.nbrs.now p 0 in
        LowStep c up p v (get_or work.now (2 * g.now.s + v) 0) so_far result }
{
    // the values are picked without a branch, which the machine would guess wrong once for each vertex
    let v = get(g.nbrs, p);
    let x = so_far.low.min(work[2 * g.s + v]);
    let is_parent = v + 1 == up;
    let passes = is_parent & so_far.back.is_none();
    let place = if is_parent {
        Some((p + c + 1) as u16)
    } else {
        None
    };
    Low {
        low: if passes { so_far.low } else { x },
        back: so_far.back.or(place),
    }
}

// 1 + the least number over all places of vertex c, and its way back.
fn own_low(g: &Graph, work: &[u16], c: usize) -> Low
    requires { (Room g.now.n g.now.s work.now) × (c < g.now.n) }
    ensures { OwnLow (held g.now) g.now.n g.now.s work.now c result }
{
    let up = get(work, g.s + c);
    let mut own = Low {
        low: work[2 * g.s + c],
        back: None,
    };
    for p in get(g.starts, c)..get(g.starts, c + 1) {
        own = next_low(g, work, c, up, p, own);
    }
    own
}

// The least number over its own places, and the way back, for every vertex.
fn own_lows(g: &Graph, work: &mut [u16])
    requires { Room g.now.n g.now.s work.old }
    ensures { Lowers (held g.now) g.now.n g.now.s work.old work.new g.now.n }
{
    for c in 0..g.n {
        let own = own_low(g, work, c);
        work[5 * g.s + c] = own.low;
        work[c] = own.back.unwrap_or(0);
    }
}

// The number of the vertex of visit number k goes into its parent's.
fn lift(g: &Graph, work: &mut [u16], k: usize)
    requires { (k < g.now.n) × (Lifts (held g.now) g.now.n g.now.s work.old (k + 1)) }
    ensures { LiftsOne (held g.now) g.now.n g.now.s work.old work.new k }
{
    let v = get(work, 3 * g.s + k);
    if let Some(u) = get(work, g.s + v).checked_sub(1) {
        let low = work[5 * g.s + v];
        work[5 * g.s + u] = work[5 * g.s + u].min(low);
    }
}

// The lowpoints, from the last visited vertex back.
pub fn lowpoints(g: &Graph, work: &mut [u16])
    requires { Searches (held g.now) g.now.n g.now.s work.old }
    ensures { Lowers (held g.now) g.now.n g.now.s work.old work.new 0 }
{
    own_lows(g, work);
    for k in (0..g.n).rev() {
        lift(g, work, k);
    }
}
