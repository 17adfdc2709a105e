// Check in room for the record's size: a call pays for each number of its room, so that a small record takes a small
// one.
ghost use Rattle.std.specs.Prelude.{◌≡◌, map, suc, ◌+◌, ◌*◌, ◌≤◌, ◌<◌, length};
ghost use Rattle.record.specs.Answers.{verdict};
ghost use Rattle.record.specs.Steps.{Lent, Room, Handed, Short};

use super::Refusal;
use super::arrays::check_arrays;
use super::layout::LaidOut;

// The list gets the neighbours, from 1.
fn hand_on(nbrs: &[u16], list: &mut [u16])
    requires { (length list.old ≡ length nbrs.now) × (Short nbrs.now) }
    ensures { list.new ≡ map suc nbrs.now }
{
    for (i, v) in nbrs.iter().enumerate() {
        list[i] = *v + 1;
    }
}

// Check, and an accepted record's neighbours, from 1, for a list of the right length.
fn unpack_by(
    laid: &LaidOut,
    list: &mut [u16],
    starts: &mut [u16],
    nbrs: &mut [u16],
    reverse: &mut [u16],
    next: &mut [u16],
) -> Result<(), Refusal>
    requires { Lent laid.now.layout.n laid.now.layout.m starts.old nbrs.old reverse.old next.old }
    ensures { Handed laid.now.layout.bytes.now list.old list.new (verdict result) }
{
    check_arrays(laid, starts, nbrs, reverse, next)?;
    if list.len() == nbrs.len() {
        hand_on(nbrs, list);
    }
    Ok(())
}

// The same in a room of so many cells, in the front parts of its arrays. The room is in this function's frame alone: so
// a small record takes a small one.
#[inline(never)]
fn unpack_in<const STARTS: usize, const NBRS: usize, const REVERSE: usize, const NEXT: usize>(
    laid: &LaidOut,
    list: &mut [u16],
) -> Result<(), Refusal>
    requires { Room laid.now.layout.n laid.now.layout.m STARTS NBRS REVERSE NEXT }
    ensures { Handed laid.now.layout.bytes.now list.old list.new (verdict result) }
{
    let mut starts = [0u16; STARTS];
    let mut nbrs = [0u16; NBRS];
    let mut reverse = [0u16; REVERSE];
    let mut next = [0u16; NEXT];
    let n = laid.layout.n;
    let places = 2 * laid.layout.m;
    unpack_by(
        laid,
        list,
        &mut starts[..n + 1],
        &mut nbrs[..places],
        &mut reverse[..places],
        &mut next[..n],
    )
}

// The room for the record's size: for 128 terminals and 512 places, for 512 and 2,048, for 8,192 places, or for every
// record. Cells to spare keep the rows out of each other's cache sets.
pub fn in_room(laid: &LaidOut, list: &mut [u16]) -> Result<(), Refusal>
    ensures { Handed laid.now.layout.bytes.now list.old list.new (verdict result) }
{
    let n = laid.layout.n;
    let m = laid.layout.m;
    if n <= 128 && m <= 256 {
        unpack_in::<129, 512, 512, 128>(laid, list)
    } else if n <= 512 && m <= 1024 {
        unpack_in::<576, 2208, 2400, 512>(laid, list)
    } else if m <= 4096 {
        unpack_in::<4160, 8352, 8544, 4160>(laid, list)
    } else {
        unpack_in::<4160, 32928, 33120, 4160>(laid, list)
    }
}
