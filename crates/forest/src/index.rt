// The index of a graph in two arrays: search, lowpoints, and the sections, each written in a part of the buffer.
ghost use Rattle.std.specs.Prelude.{◌≡◌, ◌*◌, ◌≤◌, ◌<◌, length};
ghost use Rattle.forest.specs.Index.{index_of, index_length};
ghost use Rattle.forest.specs.Lows.{Lifts};
ghost use Rattle.forest.specs.Graphs.{held, Holds};

use super::graphs::Graph;
use super::lengths::mark_bytes;
use super::lows::lowpoints;
use super::marks::{mark_bridges, mark_listed};
use super::numbers::write_numbers;
use super::search::search;

// The four sections E, P, B and the visit numbers, each in the part of the buffer that is its own.
fn write_sections(g: &Graph, work: &[u16], index: &mut [u8])
    requires lifts { Lifts (held g.now) g.now.n g.now.s work.now 0 }
    requires size { length index.old ≡ index_length g.now.n g.now.m }
    ensures { Holds g.now work.now index.new }
{
    let k = mark_bytes(g.n, g.m);
    let downs = 4 * g.s;
    let visits = 2 * g.s;
    let (e, behind_e) = index.split_at_mut(k);
    let (p, behind_p) = behind_e.split_at_mut(k);
    let (b, numbers) = behind_p.split_at_mut(k);
    mark_listed(&work[downs..downs + g.n], e);
    mark_listed(&work[..g.n], p);
    mark_bridges(g, work, b);
    write_numbers(&work[visits..visits + g.n], numbers);
}

// Searches the graph from the vertex `first` on and writes its index. What the work slice and the buffer hold before
// does not matter.
pub fn write_index(g: &Graph, first: usize, work: &mut [u16], index: &mut [u8])
    requires room { (first < g.now.n) × (8 * g.now.n ≤ length work.old) }
    requires size { length index.old ≡ index_length g.now.n g.now.m }
    ensures { index.new ≡ index_of (held g.now) first }
{
    search(g, first, work);
    lowpoints(g, work);
    write_sections(g, work, index);
}
