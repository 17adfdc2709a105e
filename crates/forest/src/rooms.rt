// Build in room for the record's size: Check fills the two arrays there, and the search goes through them.
ghost use Rattle.std.specs.Prelude.{◌≤◌};
ghost use Rattle.record.specs.Answers.{verdict};
ghost use Rattle.record.specs.Steps.{Lent, Room, ArraysOf};
ghost use Rattle.record.specs.Operations.{Accepted};
ghost use Rattle.forest.specs.Operations.{BuildDone};

use super::graphs::Graph;
use super::index::write_index;
use super::lengths::index_length;
use super::search::stride;
use super::start::no_start;
use record::arrays::check_arrays;
use record::layout::{LaidOut, Layout};
use record::{Refusal, Vertex};

// The lengths of the work slice and of the buffer, the start, and then the index, for an accepted record and its two
// arrays.
fn build_from(
    l: &Layout,
    start: Vertex,
    work: &mut [u16],
    index: &mut [u8],
    starts: &[u16],
    nbrs: &[u16],
) -> Result<(), Refusal>
    requires { (Accepted l.now.bytes.now) × (ArraysOf l.now.bytes.now starts.now nbrs.now l.now.n l.now.m) }
    ensures { BuildDone l.now.bytes.now start.0 work.old index.old index.new (verdict result) }
{
    let n = l.n;
    let m = l.m;
    if work.len() < 8 * n {
        return Err(Refusal::ShortWork);
    }
    if index.len() != index_length(n, m) {
        return Err(Refusal::WrongBuffer);
    }
    if no_start(n, start.0) {
        return Err(Refusal::NoStart);
    }
    if n == 0 {
        return Ok(());
    }
    let g = Graph {
        starts,
        nbrs,
        n,
        m,
        s: stride(n),
    };
    write_index(&g, start.0 - 1, work, index);
    Ok(())
}

// Check first.
fn build_by(
    laid: &LaidOut,
    start: Vertex,
    work: &mut [u16],
    index: &mut [u8],
    starts: &mut [u16],
    nbrs: &mut [u16],
    reverse: &mut [u16],
    next: &mut [u16],
) -> Result<(), Refusal>
    requires { Lent laid.now.layout.n laid.now.layout.m starts.old nbrs.old reverse.old next.old }
    ensures { BuildDone laid.now.layout.bytes.now start.0 work.old index.old index.new (verdict result) }
{
    check_arrays(laid, starts, nbrs, reverse, next)?;
    build_from(&laid.layout, start, work, index, starts, nbrs)
}

// The same in a room of so many cells, in the front parts of its arrays. The room is in this function's frame alone, so
// that a small record takes a small one.
#[inline(never)]
fn build_in<const STARTS: usize, const NBRS: usize, const REVERSE: usize, const NEXT: usize>(
    laid: &LaidOut,
    start: Vertex,
    work: &mut [u16],
    index: &mut [u8],
) -> Result<(), Refusal>
    requires { Room laid.now.layout.n laid.now.layout.m STARTS NBRS REVERSE NEXT }
    ensures { BuildDone laid.now.layout.bytes.now start.0 work.old index.old index.new (verdict result) }
{
    let mut starts = [0u16; STARTS];
    let mut nbrs = [0u16; NBRS];
    let mut reverse = [0u16; REVERSE];
    let mut next = [0u16; NEXT];
    let n = laid.layout.n;
    let places = 2 * laid.layout.m;
    build_by(
        laid,
        start,
        work,
        index,
        &mut starts[..n + 1],
        &mut nbrs[..places],
        &mut reverse[..places],
        &mut next[..n],
    )
}

// The room for the record's size: for 128 terminals and 512 places, for 512 and 2,048, for 8,192 places, or for every
// record. Cells to spare keep the rows out of each other's cache sets.
pub fn in_room(
    laid: &LaidOut,
    start: Vertex,
    work: &mut [u16],
    index: &mut [u8],
) -> Result<(), Refusal>
    ensures { BuildDone laid.now.layout.bytes.now start.0 work.old index.old index.new (verdict result) }
{
    let n = laid.layout.n;
    let m = laid.layout.m;
    if n <= 128 && m <= 256 {
        build_in::<129, 512, 512, 128>(laid, start, work, index)
    } else if n <= 512 && m <= 1024 {
        build_in::<576, 2208, 2400, 512>(laid, start, work, index)
    } else if m <= 4096 {
        build_in::<4160, 8352, 8544, 4160>(laid, start, work, index)
    } else {
        build_in::<4160, 32928, 33120, 4160>(laid, start, work, index)
    }
}
