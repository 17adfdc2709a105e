// The C interface. A slice is a pointer and a length; a result has the refusal's number in its high half, or else the
// value in its low half (specs/Code.antt). No function has a precondition. `include/celduga.h` declares them.
#![tactic(auto)]

ghost use Rattle.std.specs.Prelude.{◌≡◌};
ghost use Rattle.bits.specs.Bits.{bit, string, rank, select};
ghost use Rattle.record.specs.Operations.{check, degree, unpack, unpacked};
ghost use Rattle.record.specs.Filing.{file, filed};
ghost use Rattle.forest.specs.Operations.{build, built, loop_figure};
ghost use Rattle.queries.specs.Answers.{or_zero};
ghost use Rattle.queries.specs.Operations.{parent, head, ancestor, children, child, visit, visited};
ghost use Rattle.queries.specs.Table.{columns, table, tabled};
ghost use Rattle.queries.specs.Lookup.{lists, lookup, looked_up};
ghost use Rattle.celduga.specs.Code.{code, nothing, itself, TellsPart, version};

use forest::Dfi;
use record::Vertex;

mod codes; // codes.rt: answers as numbers

// ---- a record

#[unsafe(no_mangle)]
pub extern "C" fn celduga_check(bytes: &[u8]) -> u32
    ensures { result ≡ code nothing (check bytes.now) }
{
    codes::code(record::check(bytes))
}

#[unsafe(no_mangle)]
pub extern "C" fn celduga_degree(bytes: &[u8], v: usize) -> u32
    ensures { result ≡ code itself (degree bytes.now v) }
{
    codes::code(record::degree(bytes, Vertex(v)))
}

#[unsafe(no_mangle)]
pub extern "C" fn celduga_unpack(bytes: &[u8], list: &mut [u16]) -> u32
    ensures { (result ≡ code nothing (unpack bytes.now list.old))
        × (list.new ≡ unpacked bytes.now list.old) }
{
    codes::code(record::unpack(bytes, list))
}

#[unsafe(no_mangle)]
pub extern "C" fn celduga_file(degrees: &[u16], neighbours: &[u16], bytes: &mut [u8]) -> u32
    ensures { (result ≡ code nothing (file degrees.now neighbours.now bytes.old))
        × (bytes.new ≡ filed degrees.now neighbours.now bytes.old) }
{
    codes::code(record::file(degrees, neighbours, bytes))
}

// Where terminal v's part of an unpacked list of len numbers stands: how many come before it, and how many it has.
#[unsafe(no_mangle)]
pub extern "C" fn celduga_neighbours(bytes: &[u8], len: usize, v: usize) -> u64
    ensures { TellsPart bytes.now len v result }
{
    codes::of_part(record::part_of(bytes, len, Vertex(v)))
}

#[unsafe(no_mangle)]
pub extern "C" fn celduga_loop_figure(bytes: &[u8]) -> u32
    ensures { result ≡ code itself (loop_figure bytes.now) }
{
    codes::code(forest::loop_figure(bytes))
}

// ---- a record and its index

#[unsafe(no_mangle)]
pub extern "C" fn celduga_build(
    bytes: &[u8],
    start: usize,
    work: &mut [u16],
    index: &mut [u8],
) -> u32
    ensures { (result ≡ code nothing (build bytes.now start work.old index.old))
        × (index.new ≡ built bytes.now start work.old index.old) }
{
    codes::code(forest::build(bytes, Vertex(start), work, index))
}

#[unsafe(no_mangle)]
pub extern "C" fn celduga_parent(bytes: &[u8], index: &[u8], v: usize) -> u32
    ensures { result ≡ code or_zero (parent bytes.now index.now v) }
{
    codes::code(queries::parent(bytes, index, Vertex(v)))
}

#[unsafe(no_mangle)]
pub extern "C" fn celduga_head(bytes: &[u8], index: &[u8], v: usize) -> u32
    ensures { result ≡ code itself (head bytes.now index.now v) }
{
    codes::code(queries::head(bytes, index, Vertex(v)))
}

#[unsafe(no_mangle)]
pub extern "C" fn celduga_ancestor(bytes: &[u8], index: &[u8], u: usize, v: usize) -> u32
    ensures { result ≡ code bit (ancestor bytes.now index.now u v) }
{
    codes::code(queries::ancestor(bytes, index, Vertex(u), Vertex(v)))
}

#[unsafe(no_mangle)]
pub extern "C" fn celduga_children(bytes: &[u8], index: &[u8], v: usize) -> u32
    ensures { result ≡ code itself (children bytes.now index.now v) }
{
    codes::code(queries::children(bytes, index, Vertex(v)))
}

#[unsafe(no_mangle)]
pub extern "C" fn celduga_child(bytes: &[u8], index: &[u8], v: usize, j: usize) -> u32
    ensures { result ≡ code itself (child bytes.now index.now v j) }
{
    codes::code(queries::child(bytes, index, Vertex(v), j))
}

#[unsafe(no_mangle)]
pub extern "C" fn celduga_visit(bytes: &[u8], index: &[u8], v: usize) -> u32
    ensures { result ≡ code itself (visit bytes.now index.now v) }
{
    codes::code(queries::visit(bytes, index, Vertex(v)))
}

#[unsafe(no_mangle)]
pub extern "C" fn celduga_visited(bytes: &[u8], index: &[u8], i: usize) -> u32
    ensures { result ≡ code itself (visited bytes.now index.now i) }
{
    codes::code(queries::visited(bytes, index, Dfi(i)))
}

// ---- a list of terminals

#[unsafe(no_mangle)]
pub extern "C" fn celduga_lookup(
    bytes: &[u8],
    index: &[u8],
    list: &[u16],
    heads: &mut [u16],
    visits: &mut [u16],
) -> u32
    ensures { (result ≡ code nothing (lookup bytes.now index.now list.now
        (lists heads.old visits.old)))
        × (lists heads.new visits.new
        ≡ looked_up bytes.now index.now list.now
        (lists heads.old visits.old)) }
{
    codes::code(queries::lookup(bytes, index, list, heads, visits))
}

// ---- all terminals at once

#[unsafe(no_mangle)]
pub extern "C" fn celduga_table(
    bytes: &[u8],
    start: usize,
    work: &mut [u16],
    visits: &mut [u16],
    parents: &mut [u16],
    children: &mut [u16],
    heads: &mut [u16],
) -> u32
    ensures { (result ≡ code nothing (table bytes.now start work.old
        (columns visits.old parents.old children.old heads.old)))
        × (columns visits.new parents.new children.new heads.new
        ≡ tabled bytes.now start work.old
        (columns visits.old parents.old children.old heads.old)) }
{
    codes::code(queries::table(bytes, Vertex(start), work, visits, parents, children, heads))
}

// ---- bit strings

#[unsafe(no_mangle)]
pub extern "C" fn celduga_rank(bytes: &[u8], start: usize, places: usize, p: usize) -> usize
    ensures { result ≡ rank (string bytes.now start places) p }
{
    bits::rank(bytes, start, places, p)
}

#[unsafe(no_mangle)]
pub extern "C" fn celduga_select(bytes: &[u8], start: usize, places: usize, k: usize) -> usize
    ensures { result ≡ select (string bytes.now start places) k }
{
    bits::select(bytes, start, places, k)
}

// ---- the version of the archive

const MAJOR: u32 = 0;

const MINOR: u32 = 7;

const PATCH: u32 = 1;

#[unsafe(no_mangle)]
pub extern "C" fn celduga_version() -> u32
    ensures { result ≡ version 0 7 1 }
{
    65536 * MAJOR + 256 * MINOR + PATCH
}
