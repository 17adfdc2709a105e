// The lists of a table, in linear time, for an index that Build wrote. Heads are found in order of visits, so that a
// vertex's parent comes before it.
ghost use Rattle.std.specs.Prelude.{◌≡◌, suc, ◌+◌, ◌<◌, length};
ghost use Rattle.record.specs.Record.{unary};
ghost use Rattle.record.specs.Starts.{starts_of};
ghost use Rattle.queries.specs.Queries.{child_count};
ghost use Rattle.queries.specs.Filling.{Cells, parent_at, head_at, ParentsTo, HeadsTo};
ghost use Rattle.queries.specs.Table.{columns, table_on};
ghost use Rattle.queries.specs.Seen.{seen};

use super::blocks::count_children;
use super::built::Built;
use super::climbs::step_up;
use super::indexed::{Ascent, Indexed};
use super::marks::{bridge_mark, stored};
use adjacency::cells::{get, put};
use record::starts::fill_starts;

// The visit numbers, from 1.
fn fill_visits(i: &Indexed, visits: &mut [u16])
    requires { length visits.old ≡ i.now.layout.n }
    ensures { let n = i.now.layout.n in Cells (λ v. v) (λ v. suc ((seen i.now).stored v)) n n visits.new }
{
    for v in 0..i.layout.n {
        put(visits, v, stored(i, v) + 1);
    }
}

// How many children each vertex has.
fn fill_counts(a: &Ascent, counts: &mut [u16])
    requires { length counts.old ≡ a.now.indexed.layout.n }
    ensures { let n = a.now.indexed.layout.n in Cells (λ v. v) (child_count (seen a.now.indexed)) n n counts.new }
{
    let i = &a.indexed;
    for v in 0..i.layout.n {
        let from = get(a.starts, v);
        let to = get(a.starts, v + 1);
        put(counts, v, count_children(i, from + v + 1, to - from));
    }
}

// The vertices in order of visits.
fn fill_order(b: &Built, visits: &[u16], order: &mut [u16])
    requires { let n = b.now.indexed.layout.n in
        (Cells (λ v. v) (λ v. suc ((seen b.now.indexed).stored v)) n n visits.now) × (length order.old ≡ n) }
    ensures { let n = b.now.indexed.layout.n in Cells (seen b.now.indexed).stored (λ v. v) n n order.new }
{
    for v in 0..b.indexed.layout.n {
        put(order, get(visits, v) - 1, v);
    }
}

// The parent of a vertex, 0 for a root, and its head.
#[derive(Clone, Copy)]
struct Placed {
    parent: usize,
    head: usize,
}

// What stands above vertex v, by the heads of those that are visited before it.
fn place_of(b: &Built, starts: &[u16], v: usize, heads: &[u16]) -> Placed
    requires { let i = b.now.indexed in
        (starts.now ≡ starts_of (unary i.layout.bytes.now)) × (v < i.layout.n)
        × (HeadsTo i.layout.bytes.now i.index.now i.layout.n i.layout.m ((seen i).stored v) heads.now) }
    ensures { let i = b.now.indexed in
        (result.parent ≡ parent_at i.layout.bytes.now i.index.now i.layout.n i.layout.m v)
        × (result.head ≡ head_at i.layout.bytes.now i.index.now i.layout.n i.layout.m v)
        × (result.parent < 65536) × (result.head < 65536) }
{
    let i = &b.indexed;
    let from = get(starts, v);
    let to = get(starts, v + 1);
    let Some(rise) = step_up(i, v, from, to).unwrap() else {
        return Placed {
            parent: 0,
            head: v + 1,
        };
    };
    let parent = rise.to + 1;
    if bridge_mark(i, from + v + 1 + rise.at) {
        return Placed {
            parent,
            head: v + 1,
        };
    }
    Placed {
        parent,
        head: get(heads, rise.to),
    }
}

// The parents and heads of all vertices, in order of visits.
fn fill_climbs(b: &Built, starts: &[u16], order: &[u16], parents: &mut [u16], heads: &mut [u16])
    requires { let i = b.now.indexed in
        (starts.now ≡ starts_of (unary i.layout.bytes.now))
        × (Cells (seen i).stored (λ v. v) i.layout.n i.layout.n order.now)
        × (length parents.old ≡ i.layout.n) × (length heads.old ≡ i.layout.n) }
    ensures { let i = b.now.indexed in
        (ParentsTo i.layout.bytes.now i.index.now i.layout.n i.layout.m i.layout.n parents.new)
        × (HeadsTo i.layout.bytes.now i.index.now i.layout.n i.layout.m i.layout.n heads.new) }
{
    for x in order {
        let v = usize::from(*x);
        let p = place_of(b, starts, v, heads);
        put(parents, v, p.parent);
        put(heads, v, p.head);
    }
}

// The four lists. The starts and the order are room to work in.
pub fn fill(
    b: &Built,
    starts: &mut [u16],
    order: &mut [u16],
    visits: &mut [u16],
    parents: &mut [u16],
    counts: &mut [u16],
    heads: &mut [u16],
)
    requires { let n = b.now.indexed.layout.n in
        (length starts.old ≡ n + 1)
        × (length order.old ≡ n)
        × (length visits.old ≡ n)
        × (length parents.old ≡ n)
        × (length counts.old ≡ n)
        × (length heads.old ≡ n) }
    ensures { columns visits.new parents.new counts.new heads.new
        ≡ table_on b.now.indexed.layout.bytes.now b.now.indexed.index.now }
{
    let i = &b.indexed;
    fill_starts(&i.layout, starts);
    fill_visits(i, visits);
    fill_counts(
        &Ascent {
            indexed: *i,
            starts,
        },
        counts,
    );
    fill_order(b, visits, order);
    fill_climbs(b, starts, order, parents, heads);
}
