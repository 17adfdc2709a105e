// Build, and then Head for two terminals: demand 3 over the running code.
ghost use Rattle.std.specs.Prelude.{◌≡◌};
ghost use Rattle.record.specs.Answers.{verdict, answered};
ghost use Rattle.forest.specs.Operations.{build, built};
ghost use Rattle.queries.specs.Answers.{terminal};
ghost use Rattle.queries.specs.Operations.{head};
ghost use Rattle.queries.specs.Written.{Terminal, HeadsTell};

use record::{Refusal, Vertex};

// What Build and the two calls of Head answer.
#[derive(Clone, Copy)]
pub struct Heads {
    pub built: Result<(), Refusal>,
    pub first: Result<Vertex, Refusal>,
    pub second: Result<Vertex, Refusal>,
}

// Builds the index of a record with a start and asks for the heads of terminals u and v, with the buffer as Build left
// it. Where Build refuses nothing and both are terminals of the record, Head refuses neither, its answers are the
// heads, and they are equal exactly when wires of the record join u and v and, whichever one wire is taken out, the
// others still join them.
pub fn heads_of_two(
    bytes: &[u8],
    start: Vertex,
    work: &mut [u16],
    index: &mut [u8],
    u: Vertex,
    v: Vertex,
) -> Heads
    ensures { (verdict result.built ≡ build bytes.now start.0 work.old index.old)
        × (index.new ≡ built bytes.now start.0 work.old index.old)
        × (terminal result.first ≡ head bytes.now index.new u.0)
        × (terminal result.second ≡ head bytes.now index.new v.0)
        × (verdict result.built ≡ answered tt
        → Terminal bytes.now u.0
        → Terminal bytes.now v.0
        → HeadsTell bytes.now start.0 u.0 v.0 (terminal result.first) (terminal result.second)) }
{
    let built = forest::build(bytes, start, work, index);
    let first = super::head(bytes, index, u);
    let second = super::head(bytes, index, v);
    Heads {
        built,
        first,
        second,
    }
}
