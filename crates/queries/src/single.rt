// Questions about the block of one terminal.
ghost use Rattle.std.specs.Prelude.{◌≡◌, [], ◌∷◌, ◌-◌, ◌<◌};
ghost use Rattle.record.specs.Answers.{tried_then};
ghost use Rattle.queries.specs.Seen.{seen};
ghost use Rattle.queries.specs.Queries.{parent_of, child_count, child_of, past_count};
ghost use Rattle.queries.specs.Answers.{above, terminal};
ghost use Rattle.queries.specs.Steps.{Ranged, FieldsOf};

use super::blocks::{count_children, nth_child};
use super::climbs::step_up;
use super::indexed::Indexed;
use bits::spans::Span;
use record::fields::field;
use record::starts::span_of;
use record::{Refusal, Vertex};

// The fields of the block of vertex u: those from `from` on and before `to`.
fn fields_of(i: &Indexed, u: usize) -> Span
    requires { u < i.now.layout.n }
    ensures { FieldsOf i.now.layout.bytes.now u result.from result.to }
{
    let s = span_of(&i.layout, u);
    Span {
        from: s.from - (u + 1),
        to: s.to - (u + 1),
    }
}

// Its parent.
pub fn parent_in(i: &Indexed, v: Vertex) -> Result<Option<Vertex>, Refusal>
    requires { Ranged i.now.layout.n v.0 }
    ensures { above result ≡ parent_of (seen i.now) (v.0 - 1) }
{
    let u = v.0 - 1;
    let s = fields_of(i, u);
    match step_up(i, u, s.from, s.to)? {
        None => Ok(None),
        Some(rise) => Ok(Some(Vertex(rise.to + 1))),
    }
}

// How many children it has.
pub fn children_in(i: &Indexed, v: Vertex) -> usize
    requires { Ranged i.now.layout.n v.0 }
    ensures { result ≡ child_count (seen i.now) (v.0 - 1) }
{
    let u = v.0 - 1;
    let s = fields_of(i, u);
    count_children(i, s.from + u + 1, s.to - s.from)
}

// Its j-th child: 13, and then 12.
pub fn child_in(i: &Indexed, v: Vertex, j: usize) -> Result<Vertex, Refusal>
    requires { Ranged i.now.layout.n v.0 }
    ensures { terminal result
        ≡ tried_then
        ((13, past_count (seen i.now) (v.0 - 1) j) ∷ [])
        (child_of (seen i.now) (v.0 - 1) j) }
{
    if j == 0 {
        return Err(Refusal::NoChild);
    }
    let u = v.0 - 1;
    let s = fields_of(i, u);
    let p = nth_child(i, s.from + u + 1, s.to - s.from, j);
    if p == 0 {
        return Err(Refusal::NoChild);
    }
    let t = field(&i.layout, s.from + (p - 1));
    if i.layout.n <= t {
        return Err(Refusal::BadIndex);
    }
    Ok(Vertex(t + 1))
}
