// Table behind order R: Build to an index of its own, and then the four lists.
ghost use Rattle.std.specs.Prelude.{◌≡◌, ◌+◌, length};
ghost use Rattle.bits.specs.Bits.{bit};
ghost use Rattle.record.specs.Answers.{verdict};
ghost use Rattle.record.specs.Operations.{other_length};
ghost use Rattle.forest.specs.Index.{index_length as index_length_of};
ghost use Rattle.queries.specs.Table.{columns, misfits, table_on, TableDone};

use super::built::Built;
use super::columns::fill;
use super::indexed::Indexed;
use forest::lengths::index_length;
use record::layout::Layout;
use record::{Refusal, Vertex};

// Rule 10: one of the lists is not n long.
fn some_misfit(n: usize, visits: &[u16], parents: &[u16], counts: &[u16], heads: &[u16]) -> bool
    ensures { result ≡ misfits n (columns visits.now parents.now counts.now heads.now) }
{
    visits.len() != n || parents.len() != n || counts.len() != n || heads.len() != n
}

// The lists, with room for the starts of the blocks and for the order of visits.
fn fill_lists(
    b: &Built,
    visits: &mut [u16],
    parents: &mut [u16],
    counts: &mut [u16],
    heads: &mut [u16],
)
    requires { let n = b.now.indexed.layout.n in
        (length visits.old ≡ n) × (length parents.old ≡ n) × (length counts.old ≡ n) × (length heads.old ≡ n) }
    ensures { columns visits.new parents.new counts.new heads.new
        ≡ table_on b.now.indexed.layout.bytes.now b.now.indexed.index.now }
{
    let n = b.indexed.layout.n;
    let mut starts = [0u16; 4097];
    let mut order = [0u16; 4096];
    fill(
        b,
        &mut starts[..n + 1],
        &mut order[..n],
        visits,
        parents,
        counts,
        heads,
    );
}

// How many bytes Build is lent: as many as the index has where the lists are n long, and else one more. So its rule 10
// is Table's.
fn lent_length(
    layout: &Layout,
    visits: &[u16],
    parents: &[u16],
    counts: &[u16],
    heads: &[u16],
) -> usize
    ensures { result
        ≡ index_length_of layout.now.n layout.now.m
        + bit (misfits layout.now.n (columns visits.now parents.now counts.now heads.now)) }
{
    let n = layout.n;
    index_length(n, layout.m) + usize::from(some_misfit(n, visits, parents, counts, heads))
}

// Build, and then the lists, with a buffer that fits where the lists do.
fn table_by(
    layout: &Layout,
    start: Vertex,
    work: &mut [u16],
    index: &mut [u8],
    visits: &mut [u16],
    parents: &mut [u16],
    counts: &mut [u16],
    heads: &mut [u16],
) -> Result<(), Refusal>
    requires { other_length index.old (index_length_of layout.now.n layout.now.m)
        ≡ misfits layout.now.n (columns visits.old parents.old counts.old heads.old) }
    ensures { TableDone layout.now.bytes.now start.0 work.old
        (columns visits.old parents.old counts.old heads.old)
        (columns visits.new parents.new counts.new heads.new)
        (verdict result) }
{
    forest::build(layout.bytes, start, work, index)?;
    let indexed = Indexed {
        layout: *layout,
        index,
    };
    let built = Built { indexed, start };
    fill_lists(&built, visits, parents, counts, heads);
    Ok(())
}

// Table, where order R lets the record pass.
pub fn table_in(
    layout: &Layout,
    start: Vertex,
    work: &mut [u16],
    visits: &mut [u16],
    parents: &mut [u16],
    counts: &mut [u16],
    heads: &mut [u16],
) -> Result<(), Refusal>
    ensures { TableDone layout.now.bytes.now start.0 work.old
        (columns visits.old parents.old counts.old heads.old)
        (columns visits.new parents.new counts.new heads.new)
        (verdict result) }
{
    let mut index = [0u8; 19969];
    let size = lent_length(layout, visits, parents, counts, heads);
    table_by(
        layout,
        start,
        work,
        &mut index[..size],
        visits,
        parents,
        counts,
        heads,
    )
}
