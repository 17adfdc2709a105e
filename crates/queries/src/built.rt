// A record, the index that Build wrote for it, and the start that Build was given.
ghost use Rattle.std.specs.Prelude.{◌≡◌, false, ◌-◌};
ghost use Rattle.record.specs.Record.{terminals, blocks};
ghost use Rattle.record.specs.Operations.{Accepted};
ghost use Rattle.forest.specs.Index.{index_of};
ghost use Rattle.forest.specs.Operations.{no_start};

use super::indexed::Indexed;
use record::Vertex;

// No operation is given one: it says what Table has once Build is done.
#[derive(Clone, Copy)]
pub struct Built<'a> {
    pub indexed: Indexed<'a>,
    pub start: Vertex,
    pub ghost accepted: { Accepted indexed.layout.bytes.now },
    pub ghost taken: { no_start (terminals indexed.layout.bytes.now) start.0 ≡ false },
    pub ghost is: { indexed.index.now ≡ index_of (blocks indexed.layout.bytes.now) (start.0 - 1) },
}
