// One block, found between its one in D and the next.
ghost use Rattle.std.specs.Prelude.{◌≡◌, ◌*◌, IfOk};
ghost use Rattle.record.specs.Answers.{answer};
ghost use Rattle.record.specs.Operations.{degree as degree_of, PartOf};

use super::layout::Layout;
use super::range::out_of_range;
use super::starts::span_of;
use super::{Part, Refusal, Vertex};

// Terminal v's part of a list of 2·m numbers: as long as its degree.
pub fn part_in(l: &Layout, v: Vertex) -> Result<Part, Refusal>
    ensures degree { answer (λ p. p.size) result ≡ degree_of l.now.bytes.now v.0 }
    ensures part { IfOk result (λ p. PartOf l.now.bytes.now (2 * l.now.m) v.0 p.from p.size) }
{
    let t = v.0;
    if out_of_range(l.n, t) {
        return Err(Refusal::NoTerminal);
    }
    let s = span_of(l, t - 1);
    Ok(Part {
        from: s.from - t,
        size: s.to - s.from,
    })
}
