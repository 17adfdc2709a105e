// The sections E, P and B.
ghost use Rattle.std.specs.Prelude.{◌≡◌, false, ◌+◌, ◌*◌, ◌<◌, length, get_or, set, replicate};
ghost use Rattle.bits.specs.Bits.{bits};
ghost use Rattle.bits.specs.Laws.Bytes.{AreBytes};
ghost use Rattle.graph.specs.Joined.{bridge};
ghost use Rattle.forest.specs.Index.{mark_bytes};
ghost use Rattle.forest.specs.Steps.{Room};
ghost use Rattle.forest.specs.Lows.{Lifts};
ghost use Rattle.forest.specs.Marks.{mark_all, Below, marked, BridgeStep};
ghost use Rattle.forest.specs.Graphs.{held};

use super::graphs::Graph;
use adjacency::cells::get;
use bits::fields::{clear_first, set_bit};

// E or P: the bits that a list has, a number for each vertex. A root's number is 0: that bit belongs to the first
// vertex itself and is cleared in the end.
pub fn mark_listed(list: &[u16], section: &mut [u8])
    requires { (0 < length section.old) × (Below (8 * length section.old) list.now) }
    ensures section_after { bits section.new
        ≡ set (mark_all list.now (replicate (8 * length section.old) false)) 0 false }
    ensures section_len_unchanged { length section.new ≡ length section.old }
    ensures are_bytes { AreBytes section.new }
{
    section.fill(0);
    for bit in list {
        set_bit(section, usize::from(*bit));
    }
    clear_first(section);
}

// B's marks of vertex c, at both ends of the edge that leads to it: its lowpoint is its own visit number.
fn mark_bridge(g: &Graph, work: &[u16], section: &mut [u8], c: usize)
    requires room { (Room g.now.n g.now.s work.now) × (c < g.now.n) }
    requires bits_in { (get_or work.now (4 * g.now.s + c) 0 < 8 * length section.old)
        × (get_or work.now c 0 < 8 * length section.old) }
    ensures bridge_step { BridgeStep (get_or work.now (4 * g.now.s + c) 0) (get_or work.now c 0)
        (get_or work.now (5 * g.now.s + c) 0) (get_or work.now (2 * g.now.s + c) 0)
        (bits section.old) (bits section.new) }
    ensures section_len_unchanged { length section.new ≡ length section.old }
{
    let d = get(work, 4 * g.s + c);
    if 0 < d && work[5 * g.s + c] == work[2 * g.s + c] {
        set_bit(section, d);
        set_bit(section, get(work, c));
    }
}

// Section B.
pub fn mark_bridges(g: &Graph, work: &[u16], section: &mut [u8])
    requires { (length section.old ≡ mark_bytes g.now.n g.now.m) × (Lifts (held g.now) g.now.n g.now.s work.now 0) }
    ensures { section.new ≡ marked (held g.now) (bridge (held g.now)) }
{
    section.fill(0);
    for c in 0..g.n {
        mark_bridge(g, work, section, c);
    }
}
