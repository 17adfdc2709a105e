// The queries on a record and its index (document 01, "Operations and their answers"), and their answers for a list of
// terminals and for all terminals at once. No operation of this file has a precondition: each answers for every record
// and index, built or not, and every number.
#![tactic(auto)]

ghost use Rattle.std.specs.Prelude.{◌≡◌};
ghost use Rattle.record.specs.Answers.{counted, verdict};
ghost use Rattle.queries.specs.Answers.{above, terminal, related, numbered};
ghost use Rattle.queries.specs.Operations.{parent as parent_of, head as head_of, ancestor as ancestor_of};
ghost use Rattle.queries.specs.Operations.{children as children_of, child as child_of, visit as visit_of};
ghost use Rattle.queries.specs.Operations.{visited as visited_of};
ghost use Rattle.queries.specs.Table.{columns, TableDone};
ghost use Rattle.queries.specs.Lookup.{lists, LookupDone};

use forest::Dfi;
use record::range::out_of_range;
use record::{Refusal, Vertex};

mod indexed; // indexed.rt: what the questions go over
mod order; // order.rt: order R with rule 10, and order Q
mod marks; // marks.rt: a mark of B, and stored numbers
mod blocks; // blocks.rt: the marks of one block
mod climbs; // climbs.rt: steps up the forest
mod ascents; // ascents.rt: climbs, with the starts of the blocks
mod single; // single.rt: one vertex
mod visits; // visits.rt: the stored numbers
mod built; // built.rt: an index that Build wrote
mod columns; // columns.rt: the lists of a table
mod tables; // tables.rt: Table, behind order R
mod known; // known.rt: Head by what earlier climbs have found
mod lookups; // lookups.rt: Lookup, behind order R and rule 10
pub mod pair; // pair.rt: demand 3 over the running code

// Parent: the parent of terminal v, or none for a root.
pub fn parent(bytes: &[u8], index: &[u8], v: Vertex) -> Result<Option<Vertex>, Refusal>
    ensures { above result ≡ parent_of bytes.now index.now v.0 }
{
    let i = order::order_q(bytes, index, v.0)?;
    single::parent_in(&i, v)
}

// Head: where the climb from terminal v stops.
pub fn head(bytes: &[u8], index: &[u8], v: Vertex) -> Result<Vertex, Refusal>
    ensures { terminal result ≡ head_of bytes.now index.now v.0 }
{
    let i = order::order_q(bytes, index, v.0)?;
    ascents::head_in(&i, v)
}

// Ancestor: whether terminal u is v or stands above it.
pub fn ancestor(bytes: &[u8], index: &[u8], u: Vertex, v: Vertex) -> Result<bool, Refusal>
    ensures { related result ≡ ancestor_of bytes.now index.now u.0 v.0 }
{
    let i = order::order_q(bytes, index, u.0)?;
    if out_of_range(i.layout.n, v.0) {
        return Err(Refusal::NoTerminal);
    }
    ascents::ancestor_in(&i, u, v)
}

// Children: how many children terminal v has.
pub fn children(bytes: &[u8], index: &[u8], v: Vertex) -> Result<usize, Refusal>
    ensures { counted result ≡ children_of bytes.now index.now v.0 }
{
    let i = order::order_q(bytes, index, v.0)?;
    Ok(single::children_in(&i, v))
}

// Child: the j-th child of terminal v.
pub fn child(bytes: &[u8], index: &[u8], v: Vertex, j: usize) -> Result<Vertex, Refusal>
    ensures { terminal result ≡ child_of bytes.now index.now v.0 j }
{
    let i = order::order_q(bytes, index, v.0)?;
    single::child_in(&i, v, j)
}

// Visit: the visit number of terminal v.
pub fn visit(bytes: &[u8], index: &[u8], v: Vertex) -> Result<Dfi, Refusal>
    ensures { numbered result ≡ visit_of bytes.now index.now v.0 }
{
    let i = order::order_q(bytes, index, v.0)?;
    visits::visit_in(&i, v)
}

// Visited: the lowest terminal whose visit number is i.
pub fn visited(bytes: &[u8], index: &[u8], i: Dfi) -> Result<Vertex, Refusal>
    ensures { terminal result ≡ visited_of bytes.now index.now i.0 }
{
    let asked = order::order_q(bytes, index, i.0)?;
    visits::visited_in(&asked, i)
}

// Lookup: what Head and Visit answer for each terminal of a list, cell i for the list's terminal i. Order R, 10 and 15
// are tried once for all of them, and then the terminals in list order, Head before Visit. A refused call leaves the
// lists as they were.
pub fn lookup(
    bytes: &[u8],
    index: &[u8],
    list: &[u16],
    heads: &mut [u16],
    visits: &mut [u16],
) -> Result<(), Refusal>
    ensures { LookupDone bytes.now index.now list.now
        (lists heads.old visits.old)
        (lists heads.new visits.new)
        (verdict result) }
{
    let i = order::beside(bytes, index)?;
    lookups::lookup_in(&i, list, heads, visits)
}

// Table: what Visit, Parent (0 for a root), Children and Head answer for every terminal on the index that Build writes
// with this start, cell v - 1 for terminal v. The work slice is Build's, and no index is lent. A refused call leaves
// the lists as they were.
pub fn table(
    bytes: &[u8],
    start: Vertex,
    work: &mut [u16],
    visits: &mut [u16],
    parents: &mut [u16],
    counts: &mut [u16],
    heads: &mut [u16],
) -> Result<(), Refusal>
    ensures { TableDone bytes.now start.0 work.old
        (columns visits.old parents.old counts.old heads.old)
        (columns visits.new parents.new counts.new heads.new)
        (verdict result) }
{
    let layout = record::header::order_r(bytes)?;
    tables::table_in(&layout, start, work, visits, parents, counts, heads)
}
