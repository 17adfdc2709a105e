// Records (document 01, "Record"): checking, the questions that need no search, and a record from lists (document 02).
// No function of this file has a precondition; most functions of the public modules, which are for the crates above,
// have one.
#![tactic(auto)]

ghost use Rattle.std.specs.Prelude.{◌≡◌, IfOk};
ghost use Rattle.record.specs.Rules.{check_rules};
ghost use Rattle.record.specs.Answers.{number, verdict, counted, tried};
ghost use Rattle.record.specs.Sized.{shape, sizes_of};
ghost use Rattle.record.specs.Operations.{check as check_of, degree as degree_of, unpack as unpack_of, unpacked};
ghost use Rattle.record.specs.Operations.{neighbours as neighbours_of, neighbours_before, PartOf, further};
ghost use Rattle.record.specs.Filing.{file as file_of, filed};

mod lengths; // lengths.rt: the length of a record
pub mod layout; // layout.rt: a record that has passed some rules, with its sizes
pub mod header; // header.rt: the header, and order R
pub mod range; // range.rt: the range of rules 11 and 14
pub mod starts; // starts.rt: where the blocks start
pub mod fields; // fields.rt: the neighbour fields
mod blocks; // blocks.rt: one block
mod rules; // rules.rt: rules 6 and 8
pub mod arrays; // arrays.rt: the graph of a record in two arrays
mod rooms; // rooms.rt: Check in room for the record's size
mod lists; // lists.rt: two lists, rule 16, and the arrays that they give
mod list_rooms; // list_rooms.rt: rules 6 and 8 of two lists in room for their size
mod writing; // writing.rt: a record written from two lists

use layout::Layout;
use lists::Listing;

// A terminal number, from 1: document 01's vertex label.
#[derive(Clone, Copy)]
pub struct Vertex(pub usize);

// Why a call refuses, by the documents' numbers. No operation gives 7, `DoubledNeighbour`: a neighbour may stand
// several times in a block.
#[derive(Clone, Copy, Debug, PartialEq, Eq)]
pub enum Refusal {
    TooShort = 1,
    OverLimit = 2,
    WrongLength = 3,
    BadUnary = 4,
    SpareSet = 5,
    StrayNeighbour = 6,
    DoubledNeighbour = 7,
    OneSidedWire = 8,
    ShortWork = 9,
    WrongBuffer = 10,
    NoTerminal = 11,
    BadIndex = 12,
    NoChild = 13,
    NoStart = 14,
    BadList = 15,
    BadLists = 16,
    WrongRecordBuffer = 17,
}

// A part of a list: how many numbers come before it, and how many it has.
#[derive(Clone, Copy)]
pub struct Part {
    pub from: usize,
    pub size: usize,
}

// The documents' number of a refusal.
pub fn number_of(r: Refusal) -> usize
    ensures { result ≡ number r }
{
    r as usize
}

// Check, with the layout of an accepted record handed on. A list of 2·m numbers gets its neighbours, from 1.
pub fn accept<'a>(bytes: &'a [u8], list: &mut [u16]) -> Result<Layout<'a>, Refusal>
    ensures told { (shape result ≡ tried (check_rules bytes.now) (sizes_of bytes.now))
        × (list.new ≡ unpacked bytes.now list.old) }
    ensures same { IfOk result (λ l. l.bytes.now ≡ bytes.now) }
{
    let laid = header::laid_out(bytes)?;
    rooms::in_room(&laid, list)?;
    Ok(laid.layout)
}

// Check: whether the record is accepted.
pub fn check(bytes: &[u8]) -> Result<(), Refusal>
    ensures { verdict result ≡ check_of bytes.now }
{
    accept(bytes, &mut [])?;
    Ok(())
}

// Unpack: writes the neighbour numbers, from 1, to a list of 2·m numbers. A refused call leaves the list as it was.
pub fn unpack(bytes: &[u8], list: &mut [u16]) -> Result<(), Refusal>
    ensures { (verdict result ≡ unpack_of bytes.now list.old)
        × (list.new ≡ unpacked bytes.now list.old) }
{
    let layout = accept(bytes, list)?;
    if list.len() != 2 * layout.m {
        return Err(Refusal::WrongBuffer);
    }
    Ok(())
}

// Degree: how many wires terminal v has.
pub fn degree(bytes: &[u8], v: Vertex) -> Result<usize, Refusal>
    ensures { counted result ≡ degree_of bytes.now v.0 }
{
    let layout = header::order_r(bytes)?;
    let part = blocks::part_in(&layout, v)?;
    Ok(part.size)
}

// Where terminal v's part of an unpacked list of len numbers stands; nothing, at the front, where Neighbours refuses.
pub fn part_of(bytes: &[u8], len: usize, v: Vertex) -> Part
    ensures { PartOf bytes.now len v.0 result.from result.size }
{
    let none = Part { from: 0, size: 0 };
    match header::order_r(bytes) {
        Ok(layout) if len == 2 * layout.m => blocks::part_in(&layout, v).unwrap_or(none),
        _ => none,
    }
}

// Neighbours: the part of the caller's unpacked list that is terminal v's block; the empty part at the front where
// Degree refuses or the list is not 2·m long.
pub fn neighbours<'a, 'b>(bytes: &'a [u8], list: &'b [u16], v: Vertex) -> &'b [u16]
    ensures { (result.now ≡ neighbours_of bytes.now list.now v.0)
        × (result.ref_ptr ≡ further list.entry.ref_ptr (neighbours_before bytes.now list.now v.0)) }
{
    let p = part_of(bytes, list.len(), v);
    &list[p.from..p.from + p.size]
}

// File: writes the record that a list of degrees and one list of neighbours, numbers from 1, give. A refused call
// leaves the buffer as it was.
pub fn file(degrees: &[u16], neighbours: &[u16], bytes: &mut [u8]) -> Result<(), Refusal>
    ensures { (verdict result ≡ file_of degrees.now neighbours.now bytes.old)
        × (bytes.new ≡ filed degrees.now neighbours.now bytes.old) }
{
    if lists::bad_lists(degrees, neighbours) {
        return Err(Refusal::BadLists);
    }
    let lists = Listing {
        degrees,
        neighbours,
    };
    list_rooms::in_room(&lists)?;
    if bytes.len() != lengths::record_length(degrees.len(), neighbours.len() / 2) {
        return Err(Refusal::WrongRecordBuffer);
    }
    writing::write_record(&lists, bytes);
    Ok(())
}
