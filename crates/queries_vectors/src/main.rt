// Asks `queries` about fixed records and indexes and prints the answers: a line for each query, of Child and Ancestor
// one for each terminal; and then Table, and Lookup. The file stdout has what they must be.
#![tactic(auto)]

ghost use Rattle.std.specs.Prelude.{◌≤◌};

use answers::Told;
use forest::Dfi;
use record::Vertex;
use records::*;
use std::fmt::Display;
use std::io;

mod answers; // answers.rt: how the answers are printed
mod records; // records.rt: records and indexes that are asked more than once
mod tables; // tables.rt: Table
mod lookups; // lookups.rt: Lookup

// A record and an index, and the last terminal that is asked for.
#[derive(Clone, Copy)]
struct Case<'a> {
    name: &'a str,
    bytes: &'a [u8],
    index: &'a [u8],
    last: usize,
    ghost small: { last ≤ 12 },
}

impl Case<'_> {
    // The parent, or 0 for a root.
    fn parent(&self, v: usize) -> Told<usize> {
        let parent = queries::parent(self.bytes, self.index, Vertex(v));
        Told(parent.map(|p| p.map_or(0, |v| v.0)))
    }

    fn head(&self, v: usize) -> Told<usize> {
        Told(queries::head(self.bytes, self.index, Vertex(v)).map(|v| v.0))
    }

    fn children(&self, v: usize) -> Told<usize> {
        Told(queries::children(self.bytes, self.index, Vertex(v)))
    }

    fn visit(&self, v: usize) -> Told<usize> {
        Told(queries::visit(self.bytes, self.index, Vertex(v)).map(|i| i.0))
    }

    fn visited(&self, i: usize) -> Told<usize> {
        Told(queries::visited(self.bytes, self.index, Dfi(i)).map(|v| v.0))
    }

    fn child(&self, v: usize, k: usize) -> Told<usize> {
        Told(queries::child(self.bytes, self.index, Vertex(v), k).map(|v| v.0))
    }

    fn ancestor(&self, u: usize, v: usize) -> Told<char> {
        let above = queries::ancestor(self.bytes, self.index, Vertex(u), Vertex(v));
        Told(above.map(|yes| if yes { 'y' } else { 'n' }))
    }

    // A line: what a query answers for the numbers 0 to `last`.
    fn row<T: Display + Drop, F: Fn(usize) -> Told<T>>(
        &self,
        rt: &impl Print,
        query: impl Display + Drop,
        last: usize,
        ask: F,
    ) -> io::Result<()>
        requires few { last ≤ 12 }
        requires asks { F.IsAlwaysCallable ask }
    {
        let name = self.name;
        print!(rt; "{name} {query}:")?;
        for k in 0..=last {
            print!(rt; " {}", ask(k))?;
        }
        println!(rt)
    }

    // Every query for terminals 0 to `last`, Child for the numbers 0 to one above the count of children, 12 at most.
    fn ask(&self, rt: &impl Print) -> io::Result<()> {
        let last = self.last;
        self.row(rt, "parent", last, |v| self.parent(v))?;
        self.row(rt, "head", last, |v| self.head(v))?;
        self.row(rt, "children", last, |v| self.children(v))?;
        self.row(rt, "visit", last, |v| self.visit(v))?;
        self.row(rt, "visited", last, |i| self.visited(i))?;
        for v in 0..=last {
            let more = self.children(v).0.map_or(1, |k| k.min(11) + 1);
            self.row(rt, format_args!("child {v}"), more, |k| self.child(v, k))?;
            self.row(
                rt,
                format_args!("ancestor {v}"),
                last,
                |w| self.ancestor(v, w),
            )?;
        }
        Ok(())
    }

    // The largest number, as the only number, as each number of Child, and as each number of Ancestor.
    fn ask_largest(&self, rt: &impl Print) -> io::Result<()> {
        let name = self.name;
        let top = usize::MAX;
        print!(rt;
            "{name} largest: {} {} {}",
            self.parent(top),
            self.head(top),
            self.children(top)
        )?;
        print!(rt; " {} {}", self.visit(top), self.visited(top))?;
        print!(rt; " {} {}", self.child(top, 1), self.child(1, top))?;
        println!(rt; " {} {}", self.ancestor(top, 1), self.ancestor(1, top))
    }
}

fn ask_all(rt: &impl Print, cases: &[Case]) -> io::Result<()> {
    for case in cases {
        case.ask(rt)?;
    }
    Ok(())
}

// Document 01's records and their indexes.
fn stated(rt: &impl Print) -> io::Result<()> {
    let cases = [
        Case {
            name: "sample",
            bytes: SAMPLE,
            index: SAMPLE_INDEX,
            last: 7,
        },
        Case {
            name: "wire",
            bytes: WIRE,
            index: WIRE_INDEX,
            last: 3,
        },
        Case {
            name: "single",
            bytes: SINGLE,
            index: b"\x00\x00\x00\x00\x00",
            last: 2,
        },
        Case {
            name: "empty",
            bytes: EMPTY,
            index: b"",
            last: 1,
        },
    ];
    ask_all(rt, &cases)
}

// The indexes that Build writes from terminal 1: for a path, components with isolated terminals between them, two
// triangles joined by a bridge, a cycle with a chord and a tail.
fn built(rt: &impl Print) -> io::Result<()> {
    let cases = [
        Case {
            name: "path",
            bytes: PATH,
            index: PATH_INDEX,
            last: 7,
        },
        Case {
            name: "apart",
            bytes: APART,
            index: b"\x24\x20\x40\x00\x89\x20\x04\xA1\x00\x00\x00\x01\x00\x50\x07\x00\x60\x03\x00\x80\x04\x00\x20\x09",
            last: 11,
        },
        Case {
            name: "joined",
            bytes: JOINED,
            index: b"\x41\x11\x20\x08\x84\x90\x00\x90\x00\x00\x00\x05\x00\x30\x02\x00\x40\x01",
            last: 7,
        },
        Case {
            name: "chord",
            bytes: CHORD,
            index: b"\x4C\x08\x90\x02\x44\x4A\x04\x00\xC2\x00\x00\x02\x00\x40\x01\x00\x50\x03\x00\x60",
            last: 8,
        },
    ];
    ask_all(rt, &cases)
}

// The indexes that Build writes from other starts: for the sample from 4, for the path from 5.
fn started(rt: &impl Print) -> io::Result<()> {
    let cases = [
        Case {
            name: "sample_from_4",
            bytes: SAMPLE,
            index: b"\x09\x14\x24\x81\x00\x95\x00\x30\x02\x00\x10\x00\x00\x40\x05",
            last: 7,
        },
        Case {
            name: "path_from_5",
            bytes: PATH,
            index: b"\x28\x1A\x45\x41\x6D\x5B\x00\x40\x01\x00\x50\x03\x00\x00\x02",
            last: 7,
        },
    ];
    ask_all(rt, &cases)
}

// The indexes that Build writes for several wires between the same terminals: two; three; two with a single one behind
// them; two with other mentions between theirs.
fn doubled(rt: &impl Print) -> io::Result<()> {
    let cases = [
        Case {
            name: "pair",
            bytes: PAIR,
            index: b"\x40\x08\x00\x00\x00\x01",
            last: 3,
        },
        Case {
            name: "triple",
            bytes: b"\x00\x10\x00\x38\x80\x01\x00\x10\x01\x00\x00\x00\x00\x00",
            index: b"\x40\x04\x00\x00\x00\x01",
            last: 3,
        },
        Case {
            name: "tail",
            bytes: TAIL,
            index: b"\x44\x00\x08\x80\x04\x80\x00\x00\x01\x00\x20",
            last: 4,
        },
        Case {
            name: "crossed",
            bytes: CROSSED,
            index: b"\x44\x00\x02\x20\x00\x00\x00\x00\x01\x00\x20",
            last: 4,
        },
    ];
    ask_all(rt, &cases)
}

// The same for two triangles joined by two wires, and for a path with single wires between doubled and tripled ones.
fn joined_twice(rt: &impl Print) -> io::Result<()> {
    let cases = [
        Case {
            name: "joined_twice",
            bytes: JOINED_TWICE,
            index: b"\x40\x84\x48\x09\x02\x24\x00\x00\x00\x00\x00\x05\x00\x30\x02\x00\x40\x01",
            last: 7,
        },
        Case {
            name: "feeds",
            bytes: FEEDS,
            index: b"\x62\x00\x84\x04\x24\x22\x22\x00\x22\x00\x00\x03\x00\x50\x01\x00\x20\x04",
            last: 7,
        },
    ];
    ask_all(rt, &cases)
}

// The same from other starts.
fn doubled_started(rt: &impl Print) -> io::Result<()> {
    let cases = [
        Case {
            name: "tail_from_3",
            bytes: TAIL,
            index: b"\x08\x80\x44\x00\x04\x80\x00\x20\x01\x00\x00",
            last: 4,
        },
        Case {
            name: "crossed_from_2",
            bytes: CROSSED,
            index: b"\x04\x40\x20\x20\x00\x00\x00\x20\x00\x00\x10",
            last: 4,
        },
        Case {
            name: "joined_twice_from_4",
            bytes: JOINED_TWICE,
            index: b"\x40\x8C\x40\x29\x00\x24\x00\x00\x00\x00\x10\x05\x00\x30\x00\x00\x40\x02",
            last: 7,
        },
        Case {
            name: "feeds_from_3",
            bytes: FEEDS,
            index: b"\x44\x20\x22\x22\x04\x84\x22\x00\x22\x00\x40\x02\x00\x00\x05\x00\x30\x01",
            last: 7,
        },
    ];
    ask_all(rt, &cases)
}

// Marks at the second mentions; in E at both, with B at the second ones; with B at the first ones; in P at both.
fn pairs(rt: &impl Print) -> io::Result<()> {
    let cases = [
        Case {
            name: "pair_second",
            bytes: PAIR,
            index: b"\x20\x04\x00\x00\x00\x01",
            last: 3,
        },
        Case {
            name: "pair_both",
            bytes: PAIR,
            index: b"\x60\x08\x24\x00\x00\x01",
            last: 3,
        },
        Case {
            name: "pair_bridge",
            bytes: PAIR,
            index: b"\x40\x08\x48\x00\x00\x01",
            last: 3,
        },
        Case {
            name: "pair_two_marks",
            bytes: PAIR,
            index: b"\x40\x0C\x08\x00\x00\x01",
            last: 3,
        },
    ];
    ask_all(rt, &cases)
}

// Two marks in the block of 3, then both in B too; 1 and 3 each other's parent, then with B at 1's.
fn parents(rt: &impl Print) -> io::Result<()> {
    let cases = [
        Case {
            name: "two_marks",
            bytes: SAMPLE,
            index: TWO_MARKS,
            last: 7,
        },
        Case {
            name: "two_marks_bridges",
            bytes: SAMPLE,
            index: b"\x41\x84\x05\x51\x01\xD5\x00\x00\x02\x00\x10\x03\x00\x40\x05",
            last: 7,
        },
        Case {
            name: "cycle",
            bytes: SAMPLE,
            index: b"\x41\x84\x44\x51\x00\x95\x00\x00\x02\x00\x10\x03\x00\x40\x05",
            last: 7,
        },
        Case {
            name: "cycle_bridge",
            bytes: SAMPLE,
            index: b"\x41\x84\x44\x51\x40\x95\x00\x00\x02\x00\x10\x03\x00\x40\x05",
            last: 7,
        },
    ];
    ask_all(rt, &cases)
}

// Stored numbers of 6 and more, and equal ones; marks at the places of D's ones; every bit clear, and set; the index of
// the path.
fn others(rt: &impl Print) -> io::Result<()> {
    let cases = [
        Case {
            name: "numbers",
            bytes: SAMPLE,
            index: NUMBERS,
            last: 7,
        },
        Case {
            name: "ones_of_d",
            bytes: SAMPLE,
            index: b"\xD3\xAE\x96\x7B\x92\xBF\x00\x00\x02\x00\x10\x03\x00\x40\x05",
            last: 7,
        },
        Case {
            name: "clear",
            bytes: SAMPLE,
            index: b"\x00\x00\x00\x00\x00\x00\x00\x00\x00\x00\x00\x00\x00\x00\x00",
            last: 7,
        },
        Case {
            name: "full",
            bytes: SAMPLE,
            index: b"\xFF\xFF\xFF\xFF\xFF\xFF\xFF\xFF\xFF\xFF\xFF\xFF\xFF\xFF\xFF",
            last: 7,
        },
        Case {
            name: "foreign",
            bytes: SAMPLE,
            index: PATH_INDEX,
            last: 7,
        },
    ];
    ask_all(rt, &cases)
}

// A ring of parents, then with B at 4's; the path, climbed to its root with no mark in B.
fn climbs(rt: &impl Print) -> io::Result<()> {
    let cases = [
        Case {
            name: "ring",
            bytes: RING,
            index: b"\x00\x00\x49\x20\x00\x00\x00\x00\x01\x00\x20\x03",
            last: 5,
        },
        Case {
            name: "ring_bridge",
            bytes: RING,
            index: b"\x00\x00\x49\x20\x00\x20\x00\x00\x01\x00\x20\x03",
            last: 5,
        },
        Case {
            name: "path_no_bridges",
            bytes: PATH,
            index: b"\x68\x12\x05\x49\x00\x00\x00\x00\x02\x00\x50\x04\x00\x10\x03",
            last: 7,
        },
    ];
    ask_all(rt, &cases)
}

// Fields of n, and of 4,095.
fn strays(rt: &impl Print) -> io::Result<()> {
    let cases = [
        Case {
            name: "stray",
            bytes: STRAY,
            index: b"\x41\x84\x04\x55\x00\x94\x00\x00\x02\x00\x10\x03\x00\x40\x05",
            last: 7,
        },
        Case {
            name: "far",
            bytes: b"\x00\x30\x00\x59\x22\xA0\x02\x00\x10\x00\x00\x20\x01\xFF\xF0\x00\xFF\xF0\x05\xFF\xF0",
            index: SAMPLE_INDEX,
            last: 7,
        },
    ];
    ask_all(rt, &cases)
}

// One terminal, its own neighbour twice: P at the first place, then with B there, with B at the second; P and B at
// both.
fn own(rt: &impl Print) -> io::Result<()> {
    let cases = [
        Case {
            name: "own",
            bytes: OWN,
            index: b"\x60\x40\x00\x00\x00",
            last: 2,
        },
        Case {
            name: "own_bridge",
            bytes: OWN,
            index: b"\x60\x40\x40\x00\x00",
            last: 2,
        },
        Case {
            name: "own_other",
            bytes: OWN,
            index: b"\x60\x40\x20\x00\x00",
            last: 2,
        },
        Case {
            name: "own_twice",
            bytes: OWN,
            index: b"\x60\x60\x60\x00\x00",
            last: 2,
        },
    ];
    ask_all(rt, &cases)
}

// A wire listed at one end only, a neighbour that is mentioned more often than it mentions, spare bits set.
fn unaccepted(rt: &impl Print) -> io::Result<()> {
    let cases = [
        Case {
            name: "one_sided",
            bytes: ONE_SIDED,
            index: b"\x60\x0A\x02\x00\x00\x01\x00\x20",
            last: 4,
        },
        Case {
            name: "more",
            bytes: MORE,
            index: b"\x50\x04\x14\x00\x00\x01",
            last: 3,
        },
        Case {
            name: "spare",
            bytes: SPARE,
            index: SAMPLE_INDEX,
            last: 7,
        },
    ];
    ask_all(rt, &cases)
}

// Every fill bit set; then every bit of the index.
fn fills(rt: &impl Print) -> io::Result<()> {
    let cases = [
        Case {
            name: "single_filled",
            bytes: SINGLE,
            index: b"\x7F\x7F\x7F\x00\x0F",
            last: 2,
        },
        Case {
            name: "wire_filled",
            bytes: WIRE,
            index: b"\x4F\x1F\x5F\x00\x00\x01",
            last: 3,
        },
        Case {
            name: "joined_filled",
            bytes: JOINED,
            index: b"\x41\x11\x2F\x08\x84\x9F\x00\x90\x0F\x00\x00\x05\x00\x30\x02\x00\x40\x01",
            last: 7,
        },
        Case {
            name: "single_full",
            bytes: SINGLE,
            index: b"\xFF\xFF\xFF\xFF\xFF",
            last: 2,
        },
        Case {
            name: "wire_full",
            bytes: WIRE,
            index: b"\xFF\xFF\xFF\xFF\xFF\xFF",
            last: 3,
        },
    ];
    ask_all(rt, &cases)
}

// 1 and 2.
fn bad_header(rt: &impl Print) -> io::Result<()> {
    let cases = [
        Case {
            name: "none",
            bytes: b"",
            index: b"",
            last: 2,
        },
        Case {
            name: "three_bytes",
            bytes: THREE_BYTES,
            index: b"",
            last: 2,
        },
        Case {
            name: "wide",
            bytes: WIDE,
            index: b"",
            last: 2,
        },
        Case {
            name: "wired",
            bytes: b"\x00\x04\x00\x10",
            index: b"",
            last: 2,
        },
    ];
    ask_all(rt, &cases)
}

// 3 and 4, and 3 before 10.
fn bad_record(rt: &impl Print) -> io::Result<()> {
    let cases = [
        Case {
            name: "short",
            bytes: SHORT,
            index: SAMPLE_INDEX,
            last: 2,
        },
        Case {
            name: "long",
            bytes: b"\x00\x30\x00\x59\x22\xA0\x02\x00\x10\x00\x00\x20\x01\x00\x30\x00\x00\x20\x05\x00\x40\x00",
            index: SAMPLE_INDEX,
            last: 2,
        },
        Case {
            name: "few_ones",
            bytes: FEW_ONES,
            index: SAMPLE_INDEX,
            last: 2,
        },
        Case {
            name: "zero_first",
            bytes: b"\x00\x10\x00\x16\x00\x10\x00",
            index: WIRE_INDEX,
            last: 2,
        },
        Case {
            name: "short_both",
            bytes: SHORT,
            index: SHORT_INDEX,
            last: 2,
        },
    ];
    ask_all(rt, &cases)
}

// 10, before 11.
fn bad_index(rt: &impl Print) -> io::Result<()> {
    let cases = [
        Case {
            name: "index_short",
            bytes: SAMPLE,
            index: SHORT_INDEX,
            last: 2,
        },
        Case {
            name: "index_long",
            bytes: SAMPLE,
            index: b"\x41\x84\x04\x51\x00\x95\x00\x00\x02\x00\x10\x03\x00\x40\x05\x00",
            last: 2,
        },
        Case {
            name: "index_none",
            bytes: SAMPLE,
            index: b"",
            last: 2,
        },
        Case {
            name: "empty_long",
            bytes: EMPTY,
            index: b"\x00",
            last: 2,
        },
    ];
    ask_all(rt, &cases)
}

fn main(rt: HostRuntime) -> io::Result<()> {
    stated(&rt)?;
    built(&rt)?;
    started(&rt)?;
    doubled(&rt)?;
    joined_twice(&rt)?;
    doubled_started(&rt)?;
    pairs(&rt)?;
    parents(&rt)?;
    others(&rt)?;
    climbs(&rt)?;
    strays(&rt)?;
    own(&rt)?;
    unaccepted(&rt)?;
    fills(&rt)?;
    bad_header(&rt)?;
    bad_record(&rt)?;
    bad_index(&rt)?;
    let sample = Case {
        name: "sample",
        bytes: SAMPLE,
        index: SAMPLE_INDEX,
        last: 7,
    };
    sample.ask_largest(&rt)?;
    tables::accepted(&rt)?;
    tables::doubled(&rt)?;
    tables::bad_records(&rt)?;
    tables::bad_lengths(&rt)?;
    tables::other_starts(&rt)?;
    tables::doubled_starts(&rt)?;
    tables::bad_starts(&rt)?;
    lookups::runs(&rt)?;
    lookups::longest(&rt)
}
