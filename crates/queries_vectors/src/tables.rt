// Table, for all terminals at once: a line with the start, the lengths that are lent and the verdict, and one for each
// list after the call.
ghost use Rattle.std.specs.Prelude.{◌≤◌};

use crate::records::*;
use print::{show_numbers, verdict};
use record::Vertex;
use std::{fmt, io};

// The lengths of the work slice and of the four lists.
#[derive(Clone, Copy)]
struct Lent {
    work: usize,
    visits: usize,
    parents: usize,
    counts: usize,
    heads: usize,
    ghost small: { (work ≤ 81) × (visits ≤ 10) × (parents ≤ 10) × (counts ≤ 10) × (heads ≤ 10) },
}

impl Lent {
    fn new(work: usize, visits: usize, parents: usize, counts: usize, heads: usize) -> Lent
        requires { (work ≤ 81) × (visits ≤ 10) × (parents ≤ 10) × (counts ≤ 10) × (heads ≤ 10) }
    {
        Lent {
            work,
            visits,
            parents,
            counts,
            heads,
        }
    }

    // What a record of n terminals asks for.
    fn fit(n: usize) -> Lent
        requires { n ≤ 10 }
    {
        Lent::new(8 * n, n, n, n, n)
    }
}

impl fmt::Display for Lent {
    fn fmt<W: fmt::Write>(&self, f: &mut fmt::Formatter<W>) -> fmt::Result {
        write!(
            f,
            "{} {} {} {} {}",
            self.work, self.visits, self.parents, self.counts, self.heads
        )
    }
}

// Table from this start, with the lists after it. They hold marks at first, each its own: a refused call leaves them.
fn table(rt: &impl Print, name: &str, bytes: &[u8], start: usize, lent: Lent) -> io::Result<()> {
    let mut cells = [0xFFFFu16; 81];
    let mut first = [901, 902, 903, 904, 905, 906, 907, 908, 909, 910];
    let mut second = [911, 912, 913, 914, 915, 916, 917, 918, 919, 920];
    let mut third = [921, 922, 923, 924, 925, 926, 927, 928, 929, 930];
    let mut fourth = [931, 932, 933, 934, 935, 936, 937, 938, 939, 940];
    let work = &mut cells[..lent.work];
    let visits = &mut first[..lent.visits];
    let parents = &mut second[..lent.parents];
    let counts = &mut third[..lent.counts];
    let heads = &mut fourth[..lent.heads];
    let answer = queries::table(bytes, Vertex(start), work, visits, parents, counts, heads);
    println!(rt;
        "{name} table {start} {lent}: {}",
        verdict(answer.map_err(record::number_of))
    )?;
    print!(rt; "{name} visits:")?;
    show_numbers(rt, visits)?;
    print!(rt; "{name} parents:")?;
    show_numbers(rt, parents)?;
    print!(rt; "{name} counts:")?;
    show_numbers(rt, counts)?;
    print!(rt; "{name} heads:")?;
    show_numbers(rt, heads)
}

// Table with this start and with what a record of n terminals asks for.
fn run(rt: &impl Print, name: &str, bytes: &[u8], start: usize, n: usize) -> io::Result<()>
    requires { n ≤ 10 }
{
    table(rt, name, bytes, start, Lent::fit(n))
}

// Document 01's records, a path, components with isolated terminals between them, two triangles joined by a bridge, a
// cycle with a chord and a tail.
pub fn accepted(rt: &impl Print) -> io::Result<()> {
    run(rt, "sample", SAMPLE, 1, 6)?;
    run(rt, "wire", WIRE, 1, 2)?;
    run(rt, "single", SINGLE, 1, 1)?;
    run(rt, "empty", EMPTY, 0, 0)?;
    run(rt, "path", PATH, 1, 6)?;
    run(rt, "apart", APART, 1, 10)?;
    run(rt, "joined", JOINED, 1, 6)?;
    run(rt, "chord", CHORD, 1, 7)
}

// Several wires between the same terminals: two; a path with single wires between doubled and tripled ones.
pub fn doubled(rt: &impl Print) -> io::Result<()> {
    run(rt, "pair", PAIR, 1, 2)?;
    run(rt, "feeds", FEEDS, 1, 6)
}

// 1 to 6, and 8.
pub fn bad_records(rt: &impl Print) -> io::Result<()> {
    run(rt, "three_bytes", THREE_BYTES, 1, 2)?;
    run(rt, "wide", WIDE, 1, 2)?;
    run(rt, "short", SHORT, 1, 6)?;
    run(rt, "few_ones", FEW_ONES, 1, 6)?;
    run(rt, "spare", SPARE, 1, 6)?;
    run(rt, "stray", STRAY, 1, 6)?;
    run(rt, "one_sided", ONE_SIDED, 1, 3)?;
    run(rt, "more", MORE, 1, 2)
}

// Work of one number more, which is accepted; 9, before 10; 10, for each list in turn, too short and too long; and 5
// before both.
pub fn bad_lengths(rt: &impl Print) -> io::Result<()> {
    let lengths = [
        Lent::new(49, 6, 6, 6, 6),
        Lent::new(47, 6, 6, 6, 6),
        Lent::new(47, 5, 6, 6, 6),
        Lent::new(48, 5, 6, 6, 6),
        Lent::new(48, 7, 6, 6, 6),
        Lent::new(48, 6, 5, 6, 6),
        Lent::new(48, 6, 7, 6, 6),
        Lent::new(48, 6, 6, 5, 6),
        Lent::new(48, 6, 6, 7, 6),
        Lent::new(48, 6, 6, 6, 5),
        Lent::new(48, 6, 6, 6, 7),
    ];
    for lent in lengths {
        table(rt, "sample", SAMPLE, 1, lent)?;
    }
    table(rt, "spare", SPARE, 1, Lent::new(47, 6, 6, 6, 7))
}

// The sample from each of its other terminals; others from the end of a wire, inside a path and inside a component.
pub fn other_starts(rt: &impl Print) -> io::Result<()> {
    for start in 2..=6 {
        run(rt, "sample", SAMPLE, start, 6)?;
    }
    run(rt, "wire", WIRE, 2, 2)?;
    run(rt, "path", PATH, 5, 6)?;
    run(rt, "apart", APART, 9, 10)
}

// Those with several wires between the same terminals.
pub fn doubled_starts(rt: &impl Print) -> io::Result<()> {
    run(rt, "pair", PAIR, 2, 2)?;
    run(rt, "feeds", FEEDS, 3, 6)
}

// 14: the start is 0 or above n, and the empty record takes 0 only. Then 9 and 10 before 14, and 5 before all.
pub fn bad_starts(rt: &impl Print) -> io::Result<()> {
    for start in [0, 7, 65537, usize::MAX] {
        run(rt, "sample", SAMPLE, start, 6)?;
    }
    run(rt, "empty", EMPTY, 1, 0)?;
    table(rt, "sample", SAMPLE, 0, Lent::new(47, 6, 6, 6, 6))?;
    table(rt, "sample", SAMPLE, 7, Lent::new(48, 6, 6, 6, 5))?;
    table(rt, "sample", SAMPLE, 0, Lent::new(48, 7, 6, 6, 6))?;
    run(rt, "spare", SPARE, 0, 6)
}
