// Climbs with the starts of all blocks on the stack, filled by one pass over D.
ghost use Rattle.std.specs.Prelude.{◌≡◌, ◌+◌, ◌-◌, ◌<◌, ◌≤◌};
ghost use Rattle.queries.specs.Seen.{seen};
ghost use Rattle.queries.specs.Queries.{head_of, ancestor_of};
ghost use Rattle.queries.specs.Answers.{terminal, related};
ghost use Rattle.queries.specs.Steps.{Ranged};

use super::climbs::{climb_ancestor, climb_head};
use super::indexed::{Ascent, Indexed};
use record::starts::fill_starts;
use record::{Refusal, Vertex};

// The head of vertex u, with room for the starts of n blocks and for their end.
#[inline(never)]
fn head_with<const ROOM: usize>(i: &Indexed, u: usize) -> Result<Vertex, Refusal>
    requires { (u < i.now.layout.n) × (i.now.layout.n + 1 ≤ ROOM) × (ROOM ≤ 4097) }
    ensures { terminal result ≡ head_of (seen i.now) u }
{
    let mut starts = [0u16; ROOM];
    let blocks = i.layout.n + 1;
    fill_starts(&i.layout, &mut starts[..blocks]);
    climb_head(
        &Ascent {
            indexed: *i,
            starts: &starts[..blocks],
        },
        u,
    )
}

// The head of a terminal.
pub fn head_in(i: &Indexed, v: Vertex) -> Result<Vertex, Refusal>
    requires { Ranged i.now.layout.n v.0 }
    ensures { terminal result ≡ head_of (seen i.now) (v.0 - 1) }
{
    if i.layout.n <= 256 {
        return head_with::<257>(i, v.0 - 1);
    }
    head_with::<4097>(i, v.0 - 1)
}

// Whether x is vertex u or above it, with room for the starts of n blocks and for their end.
#[inline(never)]
fn ancestor_with<const ROOM: usize>(i: &Indexed, x: usize, u: usize) -> Result<bool, Refusal>
    requires { (u < i.now.layout.n) × (i.now.layout.n + 1 ≤ ROOM) × (ROOM ≤ 4097) }
    ensures { related result ≡ ancestor_of (seen i.now) x u }
{
    let mut starts = [0u16; ROOM];
    let blocks = i.layout.n + 1;
    fill_starts(&i.layout, &mut starts[..blocks]);
    climb_ancestor(
        &Ascent {
            indexed: *i,
            starts: &starts[..blocks],
        },
        x,
        u,
    )
}

// Whether terminal u is v or above it.
pub fn ancestor_in(i: &Indexed, u: Vertex, v: Vertex) -> Result<bool, Refusal>
    requires { (Ranged i.now.layout.n u.0) × (Ranged i.now.layout.n v.0) }
    ensures { related result ≡ ancestor_of (seen i.now) (u.0 - 1) (v.0 - 1) }
{
    if i.layout.n <= 256 {
        return ancestor_with::<257>(i, u.0 - 1, v.0 - 1);
    }
    ancestor_with::<4097>(i, u.0 - 1, v.0 - 1)
}
