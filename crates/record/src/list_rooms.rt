// Rules 6 and 8 of the blocks that two lists give, in room for their size.
ghost use Rattle.std.specs.Prelude.{◌≡◌, ◌/◌, ◌≤◌, length};
ghost use Rattle.record.specs.Answers.{verdict};
ghost use Rattle.record.specs.Operations.{check_graph};
ghost use Rattle.record.specs.Steps.{graph_from, Room};

use super::Refusal;
use super::lists::{Listing, try_lists};

// In a room of so many cells, in the front parts of its arrays. The room is in this function's frame alone: so short
// lists take a small one.
#[inline(never)]
fn try_in<const STARTS: usize, const NBRS: usize, const REVERSE: usize, const NEXT: usize>(
    lists: &Listing,
) -> Result<(), Refusal>
    requires { Room (length lists.now.degrees.now) (length lists.now.neighbours.now / 2) STARTS NBRS REVERSE NEXT }
    ensures { verdict result ≡ check_graph (graph_from lists.now.degrees.now lists.now.neighbours.now) }
{
    let mut starts = [0u16; STARTS];
    let mut nbrs = [0u16; NBRS];
    let mut reverse = [0u16; REVERSE];
    let mut next = [0u16; NEXT];
    let n = lists.degrees.len();
    let places = lists.neighbours.len();
    try_lists(
        lists,
        &mut starts[..n + 1],
        &mut nbrs[..places],
        &mut reverse[..places],
        &mut next[..n],
    )
}

// The room for the lists' size, as `rooms::in_room` has it for a record's.
pub fn in_room(lists: &Listing) -> Result<(), Refusal>
    ensures { verdict result ≡ check_graph (graph_from lists.now.degrees.now lists.now.neighbours.now) }
{
    let n = lists.degrees.len();
    let places = lists.neighbours.len();
    if n <= 128 && places <= 512 {
        try_in::<129, 512, 512, 128>(lists)
    } else if n <= 512 && places <= 2048 {
        try_in::<576, 2208, 2400, 512>(lists)
    } else if places <= 8192 {
        try_in::<4160, 8352, 8544, 4160>(lists)
    } else {
        try_in::<4160, 32928, 33120, 4160>(lists)
    }
}
