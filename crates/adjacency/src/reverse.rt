// Whether rules 6 and 8 are kept, in two passes over the places. The blocks are turned round: in a second row, cut by
// the same starts, part v lists the vertices whose blocks have v, in order, each as often as its block has v. Each part
// is full then, since together they have as many cells as there are places. The parts turned round once more must be
// the parts themselves, which is found by reading on in each of them. Then every two vertices mention each other
// equally often. Where the rules are kept, the parts are their own: both list the same vertices equally often, and
// neither falls.
ghost use Rattle.std.specs.Prelude.{◌≡◌, ◌+◌, ◌-◌, ◌<◌, length};
ghost use Rattle.graph.specs.Graph.{Blocks};
ghost use Rattle.adjacency.specs.Arrays.{cut, Divided, Holds};
ghost use Rattle.adjacency.specs.Reverse.{Turned, Turning, TurnedBefore, Matching, AtStarts};
ghost use Rattle.adjacency.specs.Reverse.{Reversed, Kept, Orderly};
ghost use Rattle.adjacency.specs.Tally.{Tells};

use super::cells::{copy, get, put};
use super::lists::Lists;

// A row that the starts cut into the blocks of some row, turned round.
#[derive(Clone, Copy)]
struct Parts<'a> {
    starts: &'a [u16],
    row: &'a [u16],
    ghost divided: { Divided starts.now row.now },
    ghost reversed: { ∥ Reversed starts.now row.now ∥₁ },
}

// The neighbour at place p of block u gets u in its part. A no where it is no vertex, or u itself, or its part is
// full.
fn turn_place(lists: &Lists, u: usize, p: usize, reverse: &mut [u16], next: &mut [u16]) -> bool
    requires { let l = lists.now in
        (Turning l.starts.now l.nbrs.now reverse.old next.old u p) × (Holds l.starts.now u p) }
    ensures { let l = lists.now in Tells (Turning l.starts.now l.nbrs.now reverse.new next.new u (p + 1))
        (Kept (cut l.starts.now l.nbrs.now)) result }
{
    let v = get(lists.nbrs, p);
    if lists.starts.len() - 1 <= v {
        return false;
    }
    if v == u {
        return false;
    }
    let q = get(next, v);
    if q == get(lists.starts, v + 1) {
        return false;
    }
    put(reverse, q, u);
    put(next, v, q + 1);
    true
}

// The same for all places of block u.
fn turn_block(lists: &Lists, u: usize, reverse: &mut [u16], next: &mut [u16]) -> bool
    requires { let l = lists.now in
        (TurnedBefore l.starts.now l.nbrs.now reverse.old next.old u) × (u + 1 < length l.starts.now) }
    ensures { let l = lists.now in Tells (TurnedBefore l.starts.now l.nbrs.now reverse.new next.new (u + 1))
        (Kept (cut l.starts.now l.nbrs.now)) result }
{
    let from = get(lists.starts, u);
    let end = get(lists.starts, u + 1);
    for p in from..end {
        if !turn_place(lists, u, p, reverse, next) {
            return false;
        }
    }
    true
}

// The same for all blocks.
fn turn_all(lists: &Lists, reverse: &mut [u16], next: &mut [u16]) -> bool
    requires { let l = lists.now in
        (length reverse.old ≡ length l.nbrs.now) × (AtStarts l.starts.now next.old) }
    ensures { let l = lists.now in Tells
        (TurnedBefore l.starts.now l.nbrs.now reverse.new next.new (length l.starts.now - 1))
        (Kept (cut l.starts.now l.nbrs.now)) result }
{
    for u in 0..lists.starts.len() - 1 {
        if !turn_block(lists, u, reverse, next) {
            return false;
        }
    }
    true
}

// For the vertex at place p of part u its own part is read on by one, and must have u there. The part is not at its
// end: it has as many places as its vertex has mentions in all parts.
fn match_place(parts: &Parts, u: usize, p: usize, next: &mut [u16]) -> bool
    requires { let s = parts.now in (Turned s.starts.now s.row.now s.row.now next.old p) × (Holds s.starts.now u p) }
    ensures { let s = parts.now in Tells (Turned s.starts.now s.row.now s.row.now next.new (p + 1))
        (Orderly s.starts.now s.row.now) result }
{
    let w = get(parts.row, p);
    let q = get(next, w);
    if get(parts.row, q) != u {
        return false;
    }
    put(next, w, q + 1);
    true
}

// The same for all places of part u.
fn match_block(parts: &Parts, u: usize, next: &mut [u16]) -> bool
    requires { let s = parts.now in (Matching s.starts.now s.row.now next.old u) × (u + 1 < length s.starts.now) }
    ensures { let s = parts.now in Tells (Matching s.starts.now s.row.now next.new (u + 1))
        (Orderly s.starts.now s.row.now) result }
{
    let from = get(parts.starts, u);
    let end = get(parts.starts, u + 1);
    for p in from..end {
        if !match_place(parts, u, p, next) {
            return false;
        }
    }
    true
}

// The same for all parts.
fn match_all(parts: &Parts, next: &mut [u16]) -> bool
    requires { AtStarts parts.now.starts.now next.old }
    ensures { let s = parts.now in Tells (Matching s.starts.now s.row.now next.new (length s.starts.now - 1))
        (Orderly s.starts.now s.row.now) result }
{
    for u in 0..parts.starts.len() - 1 {
        if !match_block(parts, u, next) {
            return false;
        }
    }
    true
}

// Both passes, with room for the second row and for the places that come next.
pub fn all_mutual(lists: &Lists, reverse: &mut [u16], next: &mut [u16]) -> bool
    requires reverse_len { (length reverse.old ≡ length lists.now.nbrs.now)
        × (length next.old + 1 ≡ length lists.now.starts.now) }
    ensures { let g : Blocks = cut lists.now.starts.now lists.now.nbrs.now in Tells (Kept g) (Kept g) result }
{
    let begins = &lists.starts[..lists.starts.len() - 1];
    copy(begins, next);
    if !turn_all(lists, reverse, next) {
        return false;
    }
    copy(begins, next);
    let parts = Parts {
        starts: lists.starts,
        row: reverse,
    };
    match_all(&parts, next)
}
