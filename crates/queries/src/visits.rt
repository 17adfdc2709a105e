// Questions about the stored numbers.
ghost use Rattle.std.specs.Prelude.{◌≡◌, ◌-◌};
ghost use Rattle.queries.specs.Seen.{seen};
ghost use Rattle.queries.specs.Queries.{visit_of, visited_of};
ghost use Rattle.queries.specs.Answers.{numbered, terminal};
ghost use Rattle.queries.specs.Steps.{Ranged, Passed};

use super::indexed::Indexed;
use super::marks::{stored, stored_four};
use forest::Dfi;
use record::{Refusal, Vertex};

// The visit number of a terminal.
pub fn visit_in(i: &Indexed, v: Vertex) -> Result<Dfi, Refusal>
    requires { Ranged i.now.layout.n v.0 }
    ensures { numbered result ≡ visit_of (seen i.now) (v.0 - 1) }
{
    let x = stored(i, v.0 - 1);
    if i.layout.n <= x {
        return Err(Refusal::BadIndex);
    }
    Ok(Dfi(x + 1))
}

// Numbers other than k, passed over in fours. Returns the vertex to look on from.
fn pass_fours(i: &Indexed, k: usize) -> usize
    ensures { Passed i.now.index.now i.now.layout.n i.now.layout.m k result }
{
    let fours = i.layout.n.saturating_sub(1) / 4;
    for j in 0..fours {
        let u = 4 * j;
        let x = stored_four(i, u);
        if x.a == k {
            return u;
        }
        if x.b == k {
            return u + 1;
        }
        if x.c == k {
            return u + 2;
        }
        if x.d == k {
            return u + 3;
        }
    }
    4 * fours
}

// The lowest terminal whose visit number is d: in fours up to it, and then one by one.
pub fn visited_in(i: &Indexed, d: Dfi) -> Result<Vertex, Refusal>
    requires { Ranged i.now.layout.n d.0 }
    ensures { terminal result ≡ visited_of (seen i.now) (d.0 - 1) }
{
    let k = d.0 - 1;
    for u in pass_fours(i, k)..i.layout.n {
        if stored(i, u) == k {
            return Ok(Vertex(u + 1));
        }
    }
    Err(Refusal::BadIndex)
}
