// Has `forest` build the indexes of fixed records and tell their loop figures, and prints the answers, a line for each
// call. The file stdout has what they must be.
#![tactic(auto)]

ghost use Rattle.std.specs.Prelude.{◌+◌, ◌*◌, ◌≤◌};

use print::{Told, digest, show_bytes, verdict};
use record::{Vertex, number_of};
use records::*;
use shapes::Shape;
use std::io;

mod records; // records.rt: the records that are asked about
mod shapes; // shapes.rt: the largest records

// The bytes of a section of marks.
fn mark_bytes(n: usize, m: usize) -> usize
    requires { (n ≤ 4096) × (m ≤ 16384) }
    ensures { (8 * result ≤ n + 2 * m + 7) × (result ≤ 4608) }
{
    (n + 2 * m + 7) / 8
}

// The bytes of an index.
fn index_length(n: usize, m: usize) -> usize
    requires { (n ≤ 4096) × (m ≤ 16384) }
    ensures { (8 * result ≤ 15 * n + 6 * m + 28) × (result ≤ 19968) }
{
    3 * mark_bytes(n, m) + (12 * n + 7) / 8
}

impl Record<'_> {
    // Build: the name, what the work slice and the buffer hold before the call, the start, their lengths, and the
    // answer.
    fn build(
        &self,
        rt: &impl Print,
        before: &str,
        start: usize,
        work: &mut [u16],
        index: &mut [u8],
    ) -> io::Result<()> {
        let sizes = (work.len(), index.len());
        let answer = forest::build(self.bytes, Vertex(start), work, index);
        print!(rt;
            "{} {before} {start} {} {}: {},",
            self.name,
            sizes.0,
            sizes.1,
            verdict(answer.map_err(number_of))
        )
    }

    fn loops(&self, rt: &impl Print) -> io::Result<()> {
        println!(rt;
            "{} loops: {}",
            self.name,
            Told(forest::loop_figure(self.bytes).map_err(number_of))
        )
    }

    // Build with a buffer of marks, which a refused call leaves; and the loop figure, which only Check can refuse.
    fn on_marks(&self, rt: &impl Print, start: usize, work: usize, length: usize) -> io::Result<()>
        requires { (work ≤ 64) × (length ≤ 16) }
    {
        let mut cells = [0u16; 64];
        let mut marks = *b"\xA1\xA2\xA3\xA4\xA5\xA6\xA7\xA8\xA9\xAA\xAB\xAC\xAD\xAE\xAF\xB0";
        let index = &mut marks[..length];
        self.build(rt, "marks", start, &mut cells[..work], index)?;
        show_bytes(rt, index)?;
        self.loops(rt)
    }
}

// An accepted record, with the numbers of its terminals and wires.
#[derive(Clone, Copy)]
struct Case<'a> {
    record: Record<'a>,
    n: usize,
    m: usize,
    ghost small: { (n ≤ 12) × (m ≤ 14) },
}

fn sized(record: Record<'_>, n: usize, m: usize) -> Case<'_>
    requires { (n ≤ 12) × (m ≤ 14) }
{
    Case { record, n, m }
}

impl Case<'_> {
    // Build with a work slice that has so many numbers to spare; it and the buffer are each full of one number.
    fn build(
        &self,
        rt: &impl Print,
        before: &str,
        start: usize,
        cell: u16,
        byte: u8,
        spare: usize,
    ) -> io::Result<()>
        requires { spare ≤ 3 }
    {
        let mut cells = [cell; 99];
        let mut bytes = [byte; 36];
        let work = 8 * self.n + spare;
        let index = &mut bytes[..index_length(self.n, self.m)];
        self.record
            .build(rt, before, start, &mut cells[..work], index)?;
        show_bytes(rt, index)
    }

    // What the work slice and the buffer hold before does not matter, nor does more work. The loop figure takes no
    // start.
    fn start(&self, rt: &impl Print, start: usize) -> io::Result<()> {
        self.build(rt, "zeros", start, 0, 0, 0)?;
        self.build(rt, "ones", start, 0xFFFF, 0xFF, 0)?;
        self.build(rt, "ones", start, 0xFFFF, 0xFF, 3)?;
        self.record.loops(rt)
    }
}

// Each from terminal 1.
fn start_all(rt: &impl Print, cases: &[Case]) -> io::Result<()> {
    for case in cases {
        case.start(rt, case.n.min(1))?;
    }
    Ok(())
}

// Accepted records.
fn accepted(rt: &impl Print) -> io::Result<()> {
    let cases = [
        sized(SAMPLE, 6, 5),
        sized(EMPTY, 0, 0),
        sized(SINGLE, 1, 0),
        sized(WIRE, 2, 1),
        sized(PATH, 6, 5),
        sized(HUB, 6, 5),
        sized(TREES, 9, 7),
        sized(BOWTIE, 5, 6),
        sized(JOINED, 6, 7),
        sized(LADDER, 8, 10),
        sized(CLIQUE, 4, 6),
        sized(THETA, 6, 7),
        sized(CHORD, 7, 8),
        sized(MIXED, 12, 14),
        sized(APART, 10, 5),
        sized(PAIR, 2, 2),
        sized(TRIPLE, 2, 3),
        sized(TAIL, 3, 3),
        sized(CROSSED, 3, 4),
        sized(JOINED_TWICE, 6, 8),
        sized(FEEDS, 6, 9),
    ];
    start_all(rt, &cases)
}

// Some of them from other terminals, the first of these to the last: the sample from each; others from the end of a
// wire, inside a path, from a hub, from the end of a tail, inside a component and from an isolated terminal; and those
// with several wires between the same terminals from each.
fn other_starts(rt: &impl Print) -> io::Result<()> {
    let cases = [
        (sized(SAMPLE, 6, 5), 2, 6),
        (sized(WIRE, 2, 1), 2, 2),
        (sized(PATH, 6, 5), 5, 5),
        (sized(HUB, 6, 5), 6, 6),
        (sized(CHORD, 7, 8), 7, 7),
        (sized(APART, 10, 5), 9, 10),
        (sized(PAIR, 2, 2), 2, 2),
        (sized(TRIPLE, 2, 3), 2, 2),
        (sized(TAIL, 3, 3), 2, 3),
        (sized(CROSSED, 3, 4), 2, 3),
        (sized(JOINED_TWICE, 6, 8), 2, 6),
        (sized(FEEDS, 6, 9), 2, 6),
    ];
    for (case, first, last) in &cases {
        for start in *first..=*last {
            case.start(rt, start)?;
        }
    }
    Ok(())
}

// 1 to 6, and 8.
fn unaccepted(rt: &impl Print) -> io::Result<()> {
    NONE.on_marks(rt, 1, 0, 0)?;
    WIDE.on_marks(rt, 1, 64, 16)?;
    SHORT.on_marks(rt, 1, 48, 15)?;
    FEW_ONES.on_marks(rt, 1, 48, 15)?;
    SPARE.on_marks(rt, 1, 48, 15)?;
    OWN.on_marks(rt, 1, 48, 15)?;
    ONE_SIDED.on_marks(rt, 1, 24, 8)?;
    MORE.on_marks(rt, 1, 16, 6)
}

// 9: the work slice is too short. 10: the buffer has another length than the index.
fn wrong_room(rt: &impl Print) -> io::Result<()> {
    SAMPLE.on_marks(rt, 1, 47, 15)?;
    SAMPLE.on_marks(rt, 1, 0, 15)?;
    SINGLE.on_marks(rt, 1, 7, 5)?;
    SAMPLE.on_marks(rt, 1, 48, 14)?;
    SAMPLE.on_marks(rt, 1, 48, 16)?;
    SAMPLE.on_marks(rt, 1, 48, 0)?;
    EMPTY.on_marks(rt, 0, 0, 1)
}

// 9 before 10, and Check's before both; then a call that is accepted.
fn several(rt: &impl Print) -> io::Result<()> {
    SAMPLE.on_marks(rt, 1, 47, 14)?;
    SPARE.on_marks(rt, 1, 47, 15)?;
    SPARE.on_marks(rt, 1, 48, 16)?;
    ONE_SIDED.on_marks(rt, 1, 23, 9)?;
    SAMPLE.on_marks(rt, 1, 48, 15)
}

// 14: the start is 0 or above n, and the empty record takes 0 only.
fn bad_starts(rt: &impl Print) -> io::Result<()> {
    SAMPLE.on_marks(rt, 0, 48, 15)?;
    SAMPLE.on_marks(rt, 7, 48, 15)?;
    SAMPLE.on_marks(rt, 65537, 48, 15)?;
    SAMPLE.on_marks(rt, usize::MAX, 48, 15)?;
    SINGLE.on_marks(rt, 0, 8, 5)?;
    SINGLE.on_marks(rt, 2, 8, 5)?;
    EMPTY.on_marks(rt, 1, 0, 0)?;
    EMPTY.on_marks(rt, usize::MAX, 0, 0)
}

// Check's, 9 and 10 before 14; then a call that is accepted.
fn late_starts(rt: &impl Print) -> io::Result<()> {
    SPARE.on_marks(rt, 0, 48, 15)?;
    ONE_SIDED.on_marks(rt, 4, 24, 8)?;
    SAMPLE.on_marks(rt, 0, 47, 15)?;
    SAMPLE.on_marks(rt, 7, 48, 14)?;
    SAMPLE.on_marks(rt, 7, 47, 14)?;
    EMPTY.on_marks(rt, 1, 0, 1)?;
    SAMPLE.on_marks(rt, 6, 48, 15)
}

// The ones of E, P and B.
fn ones(rt: &impl Print, index: &[u8], m: usize) -> io::Result<()>
    requires { m ≤ 16384 }
{
    let places = 4096 + 2 * m;
    let section = 8 * mark_bytes(4096, m);
    for k in 0..3 {
        print!(rt; " {}", bits::rank(index, k * section, places, places))?;
    }
    print!(rt; ",")
}

// The bytes of a record of 4,096 terminals.
fn record_length(m: usize) -> usize
    requires { m ≤ 16384 }
    ensures { result ≤ 53764 }
{
    (28 + (4096 + 2 * m) + 12 * (2 * m) + 7) / 8
}

// A record of the largest sizes, from this start. It and its index are shown by digests, and the sections of marks by
// their ones too.
fn large(rt: &impl Print, name: &str, s: Shape, start: usize) -> io::Result<()> {
    let m = shapes::wires(s);
    let mut room = [0u8; 53764];
    let mut work = [0xFFFFu16; 32768];
    let mut buffer = [0xFFu8; 19968];
    let bytes = &mut room[..record_length(m)];
    let index = &mut buffer[..index_length(4096, m)];
    shapes::pack(bytes, s);
    print!(rt; "{name} record {}:", bytes.len())?;
    digest(rt, bytes)?;
    let record = Record { name, bytes };
    record.build(rt, "ones", start, &mut work, index)?;
    ones(rt, index, m)?;
    digest(rt, index)?;
    record.loops(rt)
}

// The largest records: from the first terminal, then from the last, the path from its middle.
fn largest(rt: &impl Print) -> io::Result<()> {
    let shapes = [
        ("path", Shape::Path, 2048),
        ("star", Shape::Star, 4096),
        ("ring", Shape::Ring, 4096),
        ("circulant", Shape::Circulant, 4096),
        ("isolated", Shape::Isolated, 4096),
        ("pairs", Shape::Pairs, 4096),
    ];
    for (name, s, _) in &shapes {
        large(rt, name, *s, 1)?;
    }
    for (name, s, start) in &shapes {
        large(rt, name, *s, *start)?;
    }
    Ok(())
}

fn main(rt: HostRuntime) -> io::Result<()> {
    accepted(&rt)?;
    other_starts(&rt)?;
    unaccepted(&rt)?;
    wrong_room(&rt)?;
    several(&rt)?;
    bad_starts(&rt)?;
    late_starts(&rt)?;
    largest(&rt)
}
