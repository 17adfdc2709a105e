// The depth-first search over the work slice, whose parts are listed in specs/Steps.antt. A step holds for any list of
// roots: the search from a start gives it one.
ghost use Rattle.std.specs.Prelude.{◌≡◌, suc, ◌+◌, ◌*◌, ◌≤◌, ◌<◌, length};
ghost use Rattle.graph.specs.Search.{all, search as search_of, starts_from};
ghost use Rattle.forest.specs.Steps.{stride as stride_of, Room, Begun, Entering, PassedTo, Searched};
ghost use Rattle.forest.specs.Graphs.{held, Underway, StartTried, NextTried, IsLeft, StepTaken};

use super::graphs::Graph;
use adjacency::cells::{copy, get, put};

// 0, or 1 + the vertex at hand, as the cells have a parent, and how many vertices are entered. An Option in place of
// the 0 takes more instructions for each step of the search.
#[derive(Clone, Copy)]
pub struct Hand {
    pub cur: usize,
    pub k: usize,
}

// Where the search of all vertices stands: the vertex to try next as a start, and what is at hand.
#[derive(Clone, Copy)]
pub struct At {
    pub i: usize,
    pub hand: Hand,
}

// How far one part of the work slice stands behind the other.
pub fn stride(n: usize) -> usize
    requires { n ≤ 4096 }
    ensures { result ≡ stride_of n }
{
    n + n / 16
}

// Vertex v is entered as number k, below `up` (0, or 1 + its parent), by the place of this bit.
fn enter(g: &Graph, work: &mut [u16], v: usize, k: usize, up: usize, bit: usize)
    requires room { Room g.now.n g.now.s work.old }
    requires fits { (v < g.now.n) × (k < g.now.n) × (up ≤ g.now.n) × (bit < 65536) }
    ensures { Entering g.now.n g.now.s work.old work.new v k up bit }
{
    put(work, 2 * g.s + v, k + 1);
    put(work, g.s + v, up);
    put(work, 4 * g.s + v, bit);
    put(work, 3 * g.s + k, v);
}

// No vertex is at hand: v becomes a root if it is unvisited.
fn try_start(g: &Graph, work: &mut [u16], v: usize, k: usize) -> Hand
    requires { (v < g.now.n) × (Underway g.now work.old 0 k) }
    ensures { StartTried g.now work.old work.new v k result }
{
    if get(work, 2 * g.s + v) == 0 {
        enter(g, work, v, k, 0, 0);
        return Hand {
            cur: v + 1,
            k: k + 1,
        };
    }
    Hand { cur: 0, k }
}

// The first place from `from` on and before `end` that leads to an unvisited vertex; where there is none, one that is
// not before `end`: with an Option the loop takes an instruction more for each place.
fn pass_visited(g: &Graph, work: &[u16], from: usize, end: usize) -> usize
    requires { (Room g.now.n g.now.s work.now) × (end ≤ length g.now.nbrs.now) }
    ensures { PassedTo g.now.nbrs.now g.now.s work.now from end result }
{
    for p in from..end {
        if get(work, 2 * g.s + get(g.nbrs, p)) == 0 {
            return p;
        }
    }
    from.max(end)
}

// Vertex u is at hand: its next unvisited neighbour is entered; where there is none, the parent comes to hand.
fn try_next(g: &Graph, work: &mut [u16], u: usize, k: usize) -> Hand
    requires { (u < g.now.n) × (Underway g.now work.old (suc u) k) }
    ensures { NextTried g.now work.old work.new u k result }
{
    let from = get(work, u);
    let end = get(g.starts, u + 1);
    let p = pass_visited(g, work, from, end);
    if p < end {
        let v = get(g.nbrs, p);
        put(work, u, p + 1);
        enter(g, work, v, k, u + 1, p + u + 1);
        Hand {
            cur: v + 1,
            k: k + 1,
        }
    } else {
        Hand {
            cur: get(work, g.s + u),
            k,
        }
    }
}

// One step of the search of all vertices: the vertex at hand goes on, or else vertex i is tried.
fn step(g: &Graph, work: &mut [u16], i: usize, hand: Hand) -> At
    requires { (IsLeft g.now.n i hand) × (Underway g.now work.old hand.cur hand.k) }
    ensures { StepTaken g.now work.old work.new i hand result }
{
    if 0 < hand.cur {
        At {
            i,
            hand: try_next(g, work, hand.cur - 1, hand.k),
        }
    } else {
        At {
            i: i + 1,
            hand: try_start(g, work, i, hand.k),
        }
    }
}

// No vertex is visited, and the place that comes next for each is its start.
fn begin(g: &Graph, work: &mut [u16])
    requires { Room g.now.n g.now.s work.old }
    ensures { Begun g.now.starts.now g.now.n g.now.s work.new }
{
    let n = g.n;
    let visits = 2 * g.s;
    work[visits..visits + n].fill(0);
    copy(&g.starts[..n], &mut work[..n]);
}

// The search that begins at the vertex `first` and then takes all vertices in order. It ends once all are entered: what
// is left to try then leads to none. What the work slice held before does not matter. `left` bounds the steps that are
// still to come, for the proof that it ends.
pub fn search(g: &Graph, first: usize, work: &mut [u16])
    requires { (Room g.now.n g.now.s work.old) × (first < g.now.n) }
    ensures { Searched (held g.now) (search_of (held g.now) all (starts_from g.now.n first)) g.now.n g.now.s work.new }
{
    // a copy of its own, which no store to the work slice can reach
    let g = *g;
    begin(&g, work);
    let mut left = 2 * g.n + 4 * g.m + 1;
    let mut at = At {
        i: 0,
        hand: try_start(&g, work, first, 0),
    };
    while at.hand.k < g.n {
        at = step(&g, work, at.i, at.hand);
        left -= 1;
    }
}
