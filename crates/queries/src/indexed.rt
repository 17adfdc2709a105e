// What the questions go over: a record and its index, and the same with the starts of the blocks.
ghost use Rattle.std.specs.Prelude.{◌≡◌};
ghost use Rattle.record.specs.Record.{unary};
ghost use Rattle.record.specs.Starts.{starts_of};
ghost use Rattle.queries.specs.Steps.{Framed};

use record::layout::Layout;

// The record passed order R, and the index is as long as rule 10 asks.
#[derive(Clone, Copy)]
pub struct Indexed<'a> {
    pub layout: Layout<'a>,
    pub index: &'a [u8],
    pub ghost framed: { Framed index.now layout.n layout.m },
}

// And where the blocks start: what a climb goes over.
#[derive(Clone, Copy)]
pub struct Ascent<'a> {
    pub indexed: Indexed<'a>,
    pub starts: &'a [u16],
    pub ghost are_starts: { starts.now ≡ starts_of (unary indexed.layout.bytes.now) },
}
