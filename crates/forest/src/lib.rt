// What the search of a record gives: its index (document 01, "Forest"; the start is document 02's) and the loop figure.
// The two operations have no precondition; most functions of the modules have one.
#![tactic(auto)]

ghost use Rattle.std.specs.Prelude.{◌≡◌};
ghost use Rattle.record.specs.Answers.{verdict, counted};
ghost use Rattle.forest.specs.Operations.{build as build_of, built, loop_figure as loop_figure_of};

use record::header::laid_out;
use record::{Refusal, Vertex};

mod graphs; // graphs.rt: a graph in two arrays
mod search; // search.rt: the depth-first search
mod lows; // lows.rt: lowpoints
mod marks; // marks.rt: the sections of marks
mod numbers; // numbers.rt: the section of the visit numbers
mod index; // index.rt: the search, and the sections in order
mod rooms; // rooms.rt: Build in room for the record's size
pub mod roots; // roots.rt: the roots in a list of parents
mod figures; // figures.rt: the loop figure in room for the record's size
pub mod start; // start.rt: rule 14, and the first start
pub mod lengths; // lengths.rt: the lengths of a section and of the index

// A visit number, from 1: the paper's depth-first index.
#[derive(Clone, Copy)]
pub struct Dfi(pub usize);

// Build: writes the index of an accepted record, for the search that begins at the start. What the work slice and the
// buffer hold before does not matter; a refused call leaves the buffer as it was.
pub fn build(bytes: &[u8], start: Vertex, work: &mut [u16], index: &mut [u8]) -> Result<(), Refusal>
    ensures { (verdict result ≡ build_of bytes.now start.0 work.old index.old)
        × (index.new ≡ built bytes.now start.0 work.old index.old) }
{
    let laid = laid_out(bytes)?;
    rooms::in_room(&laid, start, work, index)
}

// Loop figure: m − n plus the number of roots, from the record alone. It is never below zero.
pub fn loop_figure(bytes: &[u8]) -> Result<usize, Refusal>
    ensures { counted result ≡ loop_figure_of bytes.now }
{
    let laid = laid_out(bytes)?;
    figures::in_room(&laid)
}
