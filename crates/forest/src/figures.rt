// The loop figure in room for the record's size: Check fills the two arrays there, and the search goes through them. An
// array that Check is done with is the work slice of the search.
ghost use Rattle.std.specs.Prelude.{◌≡◌, ◌+◌, ◌*◌, ◌≤◌, length};
ghost use Rattle.record.specs.Answers.{counted};
ghost use Rattle.record.specs.Operations.{Accepted};
ghost use Rattle.record.specs.Steps.{Room, ArraysOf};
ghost use Rattle.forest.specs.Operations.{loops, loop_figure};
ghost use Rattle.forest.specs.Steps.{stride as stride_of};

use super::graphs::Graph;
use super::roots::loops_by;
use super::search::{search, stride};
use record::Refusal;
use record::arrays::check_arrays;
use record::layout::{LaidOut, Layout};

// The figure of an accepted record, by its two arrays.
fn figure_from(l: &Layout, starts: &[u16], nbrs: &[u16], work: &mut [u16]) -> usize
    requires accepted { (Accepted l.now.bytes.now) × (ArraysOf l.now.bytes.now starts.now nbrs.now l.now.n l.now.m) }
    requires room { 6 * stride_of l.now.n ≤ length work.old }
    ensures { result ≡ loops l.now.bytes.now }
{
    let n = l.n;
    let m = l.m;
    if n == 0 {
        return 0;
    }
    let s = stride(n);
    let g = Graph {
        starts,
        nbrs,
        n,
        m,
        s,
    };
    search(&g, 0, work);
    loops_by(m, &work[s..s + n])
}

// Check first.
fn figure_by(
    laid: &LaidOut,
    starts: &mut [u16],
    nbrs: &mut [u16],
    work: &mut [u16],
    next: &mut [u16],
) -> Result<usize, Refusal>
    requires arrays { (length starts.old ≡ laid.now.layout.n + 1) × (length nbrs.old ≡ 2 * laid.now.layout.m)
        × (length next.old ≡ laid.now.layout.n) }
    requires room { (2 * laid.now.layout.m ≤ length work.old) × (6 * stride_of laid.now.layout.n ≤ length work.old) }
    ensures { counted result ≡ loop_figure laid.now.layout.bytes.now }
{
    check_arrays(laid, starts, nbrs, &mut work[..2 * laid.layout.m], next)?;
    Ok(figure_from(&laid.layout, starts, nbrs, work))
}

// The same in a room of so many cells, in the front parts of its arrays. The room is in this function's frame alone, so
// that a small record takes a small one.
#[inline(never)]
fn figure_in<const STARTS: usize, const NBRS: usize, const WORK: usize, const NEXT: usize>(
    laid: &LaidOut,
) -> Result<usize, Refusal>
    requires room { Room laid.now.layout.n laid.now.layout.m STARTS NBRS WORK NEXT }
    requires search_room { 6 * stride_of laid.now.layout.n ≤ WORK }
    ensures { counted result ≡ loop_figure laid.now.layout.bytes.now }
{
    let mut starts = [0u16; STARTS];
    let mut nbrs = [0u16; NBRS];
    let mut work = [0u16; WORK];
    let mut next = [0u16; NEXT];
    let n = laid.layout.n;
    let places = 2 * laid.layout.m;
    figure_by(
        laid,
        &mut starts[..n + 1],
        &mut nbrs[..places],
        &mut work,
        &mut next[..n],
    )
}

// The room for the record's size: for 128 terminals and 512 places, for 512 and 2,048, for 8,192 places, or for every
// record. Cells to spare keep the rows out of each other's cache sets.
pub fn in_room(laid: &LaidOut) -> Result<usize, Refusal>
    ensures { counted result ≡ loop_figure laid.now.layout.bytes.now }
{
    let n = laid.layout.n;
    let m = laid.layout.m;
    if n <= 128 && m <= 256 {
        figure_in::<129, 512, 816, 128>(laid)
    } else if n <= 512 && m <= 1024 {
        figure_in::<576, 2208, 3264, 512>(laid)
    } else if m <= 4096 {
        figure_in::<4160, 8352, 26112, 4160>(laid)
    } else {
        figure_in::<4160, 32928, 33120, 4160>(laid)
    }
}
