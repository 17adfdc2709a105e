// Steps up the forest, one at a time and until the climb ends.
ghost use Rattle.std.specs.Prelude.{◌≡◌, ◌+◌, ◌<◌, get_or};
ghost use Rattle.record.specs.Record.{unary};
ghost use Rattle.record.specs.Starts.{starts_of};
ghost use Rattle.queries.specs.Seen.{seen};
ghost use Rattle.queries.specs.Queries.{step_up as step_up_of, head_next, head_of, ancestor_next, ancestor_of};
ghost use Rattle.queries.specs.Answers.{terminal, related};
ghost use Rattle.queries.specs.Steps.{step_of, risen, move_of, turn_of};

use super::blocks::lone_parent;
use super::indexed::{Ascent, Indexed};
use super::marks::bridge_mark;
use adjacency::cells::get;
use bits::spans::Lone;
use record::fields::field;
use record::{Refusal, Vertex};
use std::ops::ControlFlow;

// The marked position, and the parent that stands there.
#[derive(Clone, Copy)]
pub struct Rise {
    pub at: usize,
    pub to: usize,
}

// The step up by P from vertex u, whose block has the fields from a up to b: to the parent, or none past a root. A
// climb of many steps needs it inlined.
#[inline(always)]
pub fn step_up(i: &Indexed, u: usize, a: usize, b: usize) -> Result<Option<Rise>, Refusal>
    requires { (u < i.now.layout.n) × (a ≡ get_or (starts_of (unary i.now.layout.bytes.now)) u 0)
        × (b ≡ get_or (starts_of (unary i.now.layout.bytes.now)) (u + 1) 0) }
    ensures { step_of result ≡ risen (step_up_of (seen i.now).graph (seen i.now).marks_p u) }
{
    match lone_parent(i, a + u + 1, b - a) {
        Lone::None => Ok(None),
        Lone::More => Err(Refusal::BadIndex),
        Lone::At(at) => {
            let to = field(&i.layout, a + at);
            if i.layout.n <= to {
                return Err(Refusal::BadIndex);
            }
            Ok(Some(Rise { at, to }))
        }
    }
}

// The step of Head from vertex u: to the parent, or none where the climb stops.
pub fn head_move(a: &Ascent, u: usize) -> Result<Option<usize>, Refusal>
    requires { u < a.now.indexed.layout.n }
    ensures { move_of u result ≡ head_next (seen a.now.indexed) u }
{
    let from = get(a.starts, u);
    let to = get(a.starts, u + 1);
    let Some(rise) = step_up(&a.indexed, u, from, to)? else {
        return Ok(None);
    };
    if bridge_mark(&a.indexed, from + u + 1 + rise.at) {
        return Ok(None);
    }
    Ok(Some(rise.to))
}

// Head's climb from vertex v.
pub fn climb_head(a: &Ascent, v: usize) -> Result<Vertex, Refusal>
    requires { v < a.now.indexed.layout.n }
    ensures { terminal result ≡ head_of (seen a.now.indexed) v }
{
    let mut u = v;
    for _ in 0..a.indexed.layout.n {
        match head_move(a, u)? {
            None => return Ok(Vertex(u + 1)),
            Some(p) => u = p,
        }
    }
    Err(Refusal::BadIndex)
}

// The step of Ancestor from vertex u: x is compared first.
fn ancestor_turn(a: &Ascent, x: usize, u: usize) -> Result<ControlFlow<bool, usize>, Refusal>
    requires { u < a.now.indexed.layout.n }
    ensures { turn_of result ≡ ancestor_next (seen a.now.indexed) x u }
{
    if x == u {
        return Ok(ControlFlow::Break(true));
    }
    match step_up(&a.indexed, u, get(a.starts, u), get(a.starts, u + 1))? {
        None => Ok(ControlFlow::Break(false)),
        Some(rise) => Ok(ControlFlow::Continue(rise.to)),
    }
}

// Ancestor's climb from vertex v.
pub fn climb_ancestor(a: &Ascent, x: usize, v: usize) -> Result<bool, Refusal>
    requires { v < a.now.indexed.layout.n }
    ensures { related result ≡ ancestor_of (seen a.now.indexed) x v }
{
    let mut u = v;
    for _ in 0..a.indexed.layout.n {
        match ancestor_turn(a, x, u)? {
            ControlFlow::Break(answer) => return Ok(answer),
            ControlFlow::Continue(p) => u = p,
        }
    }
    Err(Refusal::BadIndex)
}
