// Head by what earlier climbs have found. Cell u of `known` has the head of vertex u, from 1, or 0 where no climb has
// passed it. So no climb looks at a block that another has looked at.
ghost use Rattle.std.specs.Prelude.{◌≡◌, ◌≤◌, ◌<◌, length};
ghost use Rattle.queries.specs.Queries.{head_of};
ghost use Rattle.queries.specs.Answers.{terminal};
ghost use Rattle.queries.specs.Looking.{Known, Vertices, Kept};
ghost use Rattle.queries.specs.Seen.{seen};

use super::climbs::head_move;
use super::indexed::Ascent;
use adjacency::cells::{get, put};
use record::{Refusal, Vertex};

// The vertices that a climb has passed get head h.
fn keep(known: &mut [u16], passed: &[u16], h: usize)
    requires { (Vertices (length known.old) passed.now (length passed.now)) × (h < 65536) }
    ensures { Kept passed.now (length passed.now) h known.old known.new }
{
    for u in passed {
        put(known, usize::from(*u), h);
    }
}

// The head of vertex v: up to a vertex whose head is known, or where the climb stops. Those on the way get it too.
pub fn find_head(
    a: &Ascent,
    known: &mut [u16],
    way: &mut [u16],
    v: usize,
) -> Result<Vertex, Refusal>
    requires { (Known (seen a.now.indexed) a.now.indexed.layout.n known.old)
        × (length way.old ≡ a.now.indexed.layout.n)
        × (v < a.now.indexed.layout.n) }
    ensures { (terminal result ≡ head_of (seen a.now.indexed) v)
        × (Known (seen a.now.indexed) a.now.indexed.layout.n known.new) }
{
    let mut u = v;
    for k in 0..a.indexed.layout.n {
        let h = get(known, u);
        if 0 < h {
            keep(known, &way[..k], h);
            return Ok(Vertex(h));
        }
        put(way, k, u);
        match head_move(a, u)? {
            None => {
                keep(known, &way[..k + 1], u + 1);
                return Ok(Vertex(u + 1));
            }
            Some(p) => u = p,
        }
    }
    Err(Refusal::BadIndex)
}
