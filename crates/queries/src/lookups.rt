// Lookup behind order R and rule 10: what Head and Visit answer for each terminal of a list. The starts of the blocks
// are found once, and no climb passes a vertex that another has passed. The answers are kept in room of the call's own,
// and go to the lists once the last one is known.
ghost use Rattle.std.specs.Prelude.{◌≡◌, false, ◌+◌, ◌≤◌, length};
ghost use Rattle.record.specs.Answers.{verdict};
ghost use Rattle.queries.specs.Lookup.{lists, head_and_visit, bad_list as bad_list_of, LookupDone};
ghost use Rattle.queries.specs.Looking.{looked_of, LookedAll, Known};
ghost use Rattle.queries.specs.Seen.{seen};

use super::indexed::{Ascent, Indexed};
use super::known::find_head;
use super::visits::visit_in;
use adjacency::cells::{copy, put};
use forest::Dfi;
use record::range::out_of_range;
use record::starts::fill_starts;
use record::{Refusal, Vertex};

// A terminal's head and visit number.
#[derive(Clone, Copy)]
pub struct Seen {
    pub head: Vertex,
    pub visit: Dfi,
}

// Rule 15: the list has more than 512 terminals, or an answer list has another length.
pub fn bad_list(list: &[u16], heads: &[u16], visits: &[u16]) -> bool
    ensures { result ≡ bad_list_of list.now (lists heads.now visits.now) }
{
    512 < list.len() || heads.len() != list.len() || visits.len() != list.len()
}

// Head, and then Visit, for terminal v.
fn look(a: &Ascent, known: &mut [u16], way: &mut [u16], v: Vertex) -> Result<Seen, Refusal>
    requires { (Known (seen a.now.indexed) a.now.indexed.layout.n known.old)
        × (length way.old ≡ a.now.indexed.layout.n) }
    ensures { (looked_of result ≡ head_and_visit a.now.indexed.layout.bytes.now a.now.indexed.index.now v.0)
        × (Known (seen a.now.indexed) a.now.indexed.layout.n known.new) }
{
    let i = &a.indexed;
    if out_of_range(i.layout.n, v.0) {
        return Err(Refusal::NoTerminal);
    }
    let head = find_head(a, known, way, v.0 - 1)?;
    let visit = visit_in(i, v)?;
    Ok(Seen { head, visit })
}

// The terminals of the list in order, up to the first that is refused.
fn look_all(
    a: &Ascent,
    known: &mut [u16],
    way: &mut [u16],
    list: &[u16],
    heads: &mut [u16],
    visits: &mut [u16],
) -> Result<(), Refusal>
    requires { (Known (seen a.now.indexed) a.now.indexed.layout.n known.old)
        × (length way.old ≡ a.now.indexed.layout.n)
        × (length heads.old ≡ length list.now)
        × (length visits.old ≡ length list.now) }
    ensures { LookedAll a.now.indexed.layout.bytes.now a.now.indexed.index.now list.now
        (lists heads.new visits.new) (verdict result) }
{
    for (i, v) in list.iter().enumerate() {
        let s = look(a, known, way, Vertex(usize::from(*v)))?;
        put(heads, i, s.head.0);
        put(visits, i, s.visit.0);
    }
    Ok(())
}

// Lookup with room for the starts of the blocks, for the heads that are known, for the way of a climb and for the
// answers.
fn lookup_by(
    i: &Indexed,
    list: &[u16],
    starts: &mut [u16],
    known: &mut [u16],
    way: &mut [u16],
    first: &mut [u16],
    second: &mut [u16],
    heads: &mut [u16],
    visits: &mut [u16],
) -> Result<(), Refusal>
    requires { (bad_list_of list.now (lists heads.old visits.old) ≡ false)
        × (length starts.old ≡ i.now.layout.n + 1)
        × (Known (seen i.now) i.now.layout.n known.old)
        × (length way.old ≡ i.now.layout.n)
        × (length first.old ≡ length list.now)
        × (length second.old ≡ length list.now) }
    ensures { LookupDone i.now.layout.bytes.now i.now.index.now list.now
        (lists heads.old visits.old)
        (lists heads.new visits.new)
        (verdict result) }
{
    fill_starts(&i.layout, starts);
    let ascent = Ascent {
        indexed: *i,
        starts,
    };
    look_all(&ascent, known, way, list, first, second)?;
    copy(first, heads);
    copy(second, visits);
    Ok(())
}

// The same with room for so many starts and vertices.
#[inline(never)]
fn lookup_roomed<const STARTS: usize, const VERTICES: usize>(
    i: &Indexed,
    list: &[u16],
    heads: &mut [u16],
    visits: &mut [u16],
) -> Result<(), Refusal>
    requires { (bad_list_of list.now (lists heads.old visits.old) ≡ false)
        × (i.now.layout.n + 1 ≤ STARTS) × (i.now.layout.n ≤ VERTICES)
        × (STARTS ≤ 4097) × (VERTICES ≤ 4096) }
    ensures { LookupDone i.now.layout.bytes.now i.now.index.now list.now
        (lists heads.old visits.old)
        (lists heads.new visits.new)
        (verdict result) }
{
    let mut starts = [0u16; STARTS];
    let mut known = [0u16; VERTICES];
    let mut way = [0u16; VERTICES];
    let mut first = [0u16; 512];
    let mut second = [0u16; 512];
    let n = i.layout.n;
    let k = list.len();
    lookup_by(
        i,
        list,
        &mut starts[..n + 1],
        &mut known[..n],
        &mut way[..n],
        &mut first[..k],
        &mut second[..k],
        heads,
        visits,
    )
}

// Rule 15, and then the list.
pub fn lookup_in(
    i: &Indexed,
    list: &[u16],
    heads: &mut [u16],
    visits: &mut [u16],
) -> Result<(), Refusal>
    ensures { LookupDone i.now.layout.bytes.now i.now.index.now list.now
        (lists heads.old visits.old)
        (lists heads.new visits.new)
        (verdict result) }
{
    if bad_list(list, heads, visits) {
        return Err(Refusal::BadList);
    }
    if i.layout.n <= 256 {
        return lookup_roomed::<257, 256>(i, list, heads, visits);
    }
    lookup_roomed::<4097, 4096>(i, list, heads, visits)
}
