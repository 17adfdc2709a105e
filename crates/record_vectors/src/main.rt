// Asks `record` about fixed records and prints the answers, a line for each call. The file stdout has what they must
// be.
#![tactic(auto)]

ghost use Rattle.std.specs.Prelude.{◌≤◌};

use print::{Told, show_bytes, show_numbers, verdict};
use record::{Vertex, number_of};
use std::io;

// A record, and the sizes to ask with.
#[derive(Clone, Copy)]
struct Case<'a> {
    name: &'a str,
    bytes: &'a [u8],
    n: usize,
    m: usize,
    ghost small: { (n ≤ 6) × (m ≤ 5) },
}

impl Case<'_> {
    fn check(&self, rt: &impl Print) -> io::Result<()> {
        println!(rt;
            "{} check: {}",
            self.name,
            verdict(record::check(self.bytes).map_err(number_of))
        )
    }

    fn degree(&self, rt: &impl Print, v: usize) -> io::Result<()> {
        let answer = Told(record::degree(self.bytes, Vertex(v)).map_err(number_of));
        println!(rt; "{} degree {v}: {answer}", self.name)
    }

    // Unpack, with the list after it.
    fn unpack(&self, rt: &impl Print, list: &mut [u16]) -> io::Result<()> {
        let answer = verdict(record::unpack(self.bytes, list).map_err(number_of));
        print!(rt; "{} unpack {}: {answer},", self.name, list.len())?;
        show_numbers(rt, list)
    }

    fn neighbours(&self, rt: &impl Print, list: &[u16], v: usize) -> io::Result<()> {
        print!(rt; "{} neighbours {} {v}:", self.name, list.len())?;
        show_numbers(rt, record::neighbours(self.bytes, list, Vertex(v)))
    }

    // Unpack, and Neighbours of terminals `first` to `last`, with a list of this length. It holds marks at first: a
    // refused Unpack leaves them.
    fn lists(&self, rt: &impl Print, length: usize, first: usize, last: usize) -> io::Result<()>
        requires { (length ≤ 11) × (last ≤ 7) }
    {
        let mut marks = [901, 902, 903, 904, 905, 906, 907, 908, 909, 910, 911];
        let list = &mut marks[..length];
        self.unpack(rt, list)?;
        for v in first..=last {
            self.neighbours(rt, list, v)?;
        }
        Ok(())
    }

    // All calls, for terminals 0 to n + 1, and lists of 2·m numbers, one less and one more.
    fn ask(&self, rt: &impl Print) -> io::Result<()> {
        self.check(rt)?;
        let last = self.n + 1;
        for v in 0..=last {
            self.degree(rt, v)?;
        }
        let ends = 2 * self.m;
        self.lists(rt, ends, 0, last)?;
        if 0 < ends {
            self.lists(rt, ends - 1, 1, 1)?;
        }
        self.lists(rt, ends + 1, 1, 1)
    }
}

fn ask_all(rt: &impl Print, cases: &[Case]) -> io::Result<()> {
    for case in cases {
        case.ask(rt)?;
    }
    Ok(())
}

// Accepted records.
fn accepted(rt: &impl Print) -> io::Result<()> {
    let cases = [
        Case {
            name: "sample",
            bytes: b"\x00\x30\x00\x59\x22\xA0\x02\x00\x10\x00\x00\x20\x01\x00\x30\x00\x00\x20\x05\x00\x40",
            n: 6,
            m: 5,
        },
        Case {
            name: "empty",
            bytes: b"\x00\x00\x00\x00",
            n: 0,
            m: 0,
        },
        Case {
            name: "single",
            bytes: b"\x00\x08\x00\x08",
            n: 1,
            m: 0,
        },
        Case {
            name: "isolated",
            bytes: b"\x00\x20\x00\x0F",
            n: 4,
            m: 0,
        },
        Case {
            name: "wire",
            bytes: b"\x00\x10\x00\x1A\x00\x10\x00",
            n: 2,
            m: 1,
        },
        Case {
            name: "triangle",
            bytes: b"\x00\x18\x00\x39\x20\x00\x80\x10\x00\x00\x10\x00\x00\x08",
            n: 3,
            m: 3,
        },
        Case {
            name: "star",
            bytes: b"\x00\x28\x00\x48\x55\x00\x08\x01\x00\x18\x02\x00\x00\x00\x00\x00\x00\x00",
            n: 5,
            m: 4,
        },
        Case {
            name: "hub",
            bytes: b"\x00\x20\x00\x3A\xA0\x00\xC0\x0C\x00\xC0\x08\x00\x00\x04",
            n: 4,
            m: 3,
        },
        Case {
            name: "components",
            bytes: b"\x00\x28\x00\x4A\x92\x00\x08\x00\x00\x18\x02\x00\x20\x01\x00\x10\x01\x80",
            n: 5,
            m: 4,
        },
        Case {
            name: "apart",
            bytes: b"\x00\x28\x00\x1D\xA0\x06\x00\x20",
            n: 5,
            m: 1,
        },
    ];
    ask_all(rt, &cases)
}

// Accepted records with several wires between the same terminals: two; three; two with a single one behind them; two
// with other mentions between theirs.
fn doubled(rt: &impl Print) -> io::Result<()> {
    let cases = [
        Case {
            name: "pair",
            bytes: b"\x00\x10\x00\x29\x00\x04\x00\x40\x00\x00\x00",
            n: 2,
            m: 2,
        },
        Case {
            name: "triple",
            bytes: b"\x00\x10\x00\x38\x80\x01\x00\x10\x01\x00\x00\x00\x00\x00",
            n: 2,
            m: 3,
        },
        Case {
            name: "tail",
            bytes: b"\x00\x18\x00\x39\x10\x00\x80\x08\x00\x00\x10\x00\x00\x08",
            n: 3,
            m: 3,
        },
        Case {
            name: "crossed",
            bytes: b"\x00\x18\x00\x48\x88\x00\x20\x04\x00\x20\x04\x00\x00\x00\x00\x00\x02",
            n: 3,
            m: 4,
        },
    ];
    ask_all(rt, &cases)
}

// 1: under 4 bytes.
fn too_short(rt: &impl Print) -> io::Result<()> {
    let cases = [
        Case {
            name: "none",
            bytes: b"",
            n: 1,
            m: 1,
        },
        Case {
            name: "one_byte",
            bytes: b"\x00",
            n: 1,
            m: 1,
        },
        Case {
            name: "two_bytes",
            bytes: b"\x00\x30",
            n: 1,
            m: 1,
        },
        Case {
            name: "three_bytes",
            bytes: b"\x00\x00\x00",
            n: 0,
            m: 0,
        },
    ];
    ask_all(rt, &cases)
}

// 2: n or m over its limit. The limits themselves have only a wrong length.
fn over_limit(rt: &impl Print) -> io::Result<()> {
    let cases = [
        Case {
            name: "wide",
            bytes: b"\x80\x08\x00\x00",
            n: 1,
            m: 0,
        },
        Case {
            name: "wide_limit",
            bytes: b"\x80\x00\x00\x00",
            n: 1,
            m: 0,
        },
        Case {
            name: "wired",
            bytes: b"\x00\x04\x00\x10",
            n: 0,
            m: 1,
        },
        Case {
            name: "wired_limit",
            bytes: b"\x00\x04\x00\x00",
            n: 0,
            m: 1,
        },
        Case {
            name: "all_ones",
            bytes: b"\xFF\xFF\xFF\xFF",
            n: 1,
            m: 1,
        },
    ];
    ask_all(rt, &cases)
}

// 3: a byte short, a byte long.
fn wrong_length(rt: &impl Print) -> io::Result<()> {
    let cases = [
        Case {
            name: "sample_short",
            bytes: b"\x00\x30\x00\x59\x22\xA0\x02\x00\x10\x00\x00\x20\x01\x00\x30\x00\x00\x20\x05\x00",
            n: 6,
            m: 5,
        },
        Case {
            name: "sample_long",
            bytes: b"\x00\x30\x00\x59\x22\xA0\x02\x00\x10\x00\x00\x20\x01\x00\x30\x00\x00\x20\x05\x00\x40\x00",
            n: 6,
            m: 5,
        },
        Case {
            name: "empty_long",
            bytes: b"\x00\x00\x00\x00\x00",
            n: 0,
            m: 0,
        },
    ];
    ask_all(rt, &cases)
}

// 4: D with a one too few, a one too many, a zero in front; no terminal and a wire.
fn bad_unary(rt: &impl Print) -> io::Result<()> {
    let cases = [
        Case {
            name: "few_ones",
            bytes: b"\x00\x30\x00\x59\x22\x80\x02\x00\x10\x00\x00\x20\x01\x00\x30\x00\x00\x20\x05\x00\x40",
            n: 6,
            m: 5,
        },
        Case {
            name: "many_ones",
            bytes: b"\x00\x30\x00\x59\x22\xB0\x02\x00\x10\x00\x00\x20\x01\x00\x30\x00\x00\x20\x05\x00\x40",
            n: 6,
            m: 5,
        },
        Case {
            name: "zero_first",
            bytes: b"\x00\x10\x00\x16\x00\x10\x00",
            n: 2,
            m: 1,
        },
        Case {
            name: "no_ones",
            bytes: b"\x00\x00\x00\x10\x00\x00\x00",
            n: 0,
            m: 1,
        },
    ];
    ask_all(rt, &cases)
}

// 5: a spare bit is set.
fn spare_set(rt: &impl Print) -> io::Result<()> {
    let cases = [
        Case {
            name: "spare_last",
            bytes: b"\x00\x30\x00\x59\x22\xA0\x02\x00\x10\x00\x00\x20\x01\x00\x30\x00\x00\x20\x05\x00\x41",
            n: 6,
            m: 5,
        },
        Case {
            name: "spare_first",
            bytes: b"\x00\x18\x00\x39\x20\x00\x80\x10\x00\x00\x10\x00\x00\x0C",
            n: 3,
            m: 3,
        },
        Case {
            name: "spare_single",
            bytes: b"\x00\x08\x00\x0A",
            n: 1,
            m: 0,
        },
    ];
    ask_all(rt, &cases)
}

// 6: a neighbour above n, or its own.
fn stray(rt: &impl Print) -> io::Result<()> {
    let cases = [
        Case {
            name: "over",
            bytes: b"\x00\x10\x00\x1A\x00\x20\x00",
            n: 2,
            m: 1,
        },
        Case {
            name: "far_over",
            bytes: b"\x00\x10\x00\x1A\x00\x1F\xFF",
            n: 2,
            m: 1,
        },
        Case {
            name: "own",
            bytes: b"\x00\x10\x00\x1A\x00\x00\x01",
            n: 2,
            m: 1,
        },
        Case {
            name: "own_last",
            bytes: b"\x00\x30\x00\x59\x22\xA0\x02\x00\x10\x00\x00\x20\x01\x00\x30\x00\x00\x20\x05\x00\x50",
            n: 6,
            m: 5,
        },
    ];
    ask_all(rt, &cases)
}

// 8: a neighbour that does not mention the terminal.
fn one_sided(rt: &impl Print) -> io::Result<()> {
    let cases = [
        Case {
            name: "one_sided",
            bytes: b"\x00\x18\x00\x29\x40\x02\x00\x40\x00\x00\x20",
            n: 3,
            m: 2,
        },
        Case {
            name: "round",
            bytes: b"\x00\x20\x00\x2A\xA0\x01\x00\x20\x03\x00\x00",
            n: 4,
            m: 2,
        },
        Case {
            name: "round_twice",
            bytes: b"\x00\x18\x00\x39\x20\x00\x80\x08\x01\x00\x10\x00\x00\x00",
            n: 3,
            m: 3,
        },
        Case {
            name: "doubled_sided",
            bytes: b"\x00\x18\x00\x2B\x00\x02\x00\x20\x00\x00\x20",
            n: 3,
            m: 2,
        },
    ];
    ask_all(rt, &cases)
}

// 8: two terminals that mention each other, one more often than the other.
fn unequal(rt: &impl Print) -> io::Result<()> {
    let cases = [
        Case {
            name: "more",
            bytes: b"\x00\x10\x00\x28\x80\x04\x00\x40\x04\x00\x00",
            n: 2,
            m: 2,
        },
        Case {
            name: "less",
            bytes: b"\x00\x10\x00\x2A\x00\x04\x00\x00\x00\x00\x00",
            n: 2,
            m: 2,
        },
        Case {
            name: "more_last",
            bytes: b"\x00\x18\x00\x49\x20\x00\x40\x02\x00\x00\x04\x00\x00\x02\x00\x00\x02",
            n: 3,
            m: 4,
        },
    ];
    ask_all(rt, &cases)
}

// Several rules broken at once: the first rule is told, wherever it is broken.
fn several(rt: &impl Print) -> io::Result<()> {
    let cases = [
        Case {
            name: "3_and_4",
            bytes: b"\x00\x30\x00\x59\x22\x80\x02\x00\x10\x00\x00\x20\x01\x00\x30\x00\x00\x20\x05\x00",
            n: 6,
            m: 5,
        },
        Case {
            name: "4_and_5",
            bytes: b"\x00\x30\x00\x59\x22\x80\x02\x00\x10\x00\x00\x20\x01\x00\x30\x00\x00\x20\x05\x00\x41",
            n: 6,
            m: 5,
        },
        Case {
            name: "5_and_6",
            bytes: b"\x00\x18\x00\x39\x20\x00\x80\x40\x00\x00\x10\x00\x00\x09",
            n: 3,
            m: 3,
        },
        Case {
            name: "6_after_8",
            bytes: b"\x00\x10\x00\x29\x00\x04\x00\x40\x00\x00\x80",
            n: 2,
            m: 2,
        },
        Case {
            name: "5_6_and_8",
            bytes: b"\x00\x18\x00\x38\xA0\x00\x80\x08\x01\x00\x00\x01\x00\x41",
            n: 3,
            m: 3,
        },
    ];
    ask_all(rt, &cases)
}

// The most terminals, and no wire.
fn widest(rt: &impl Print) -> io::Result<()> {
    let mut bytes = [0xFF; 516];
    bytes[0] = 0x80;
    bytes[1] = 0x00;
    bytes[2] = 0x00;
    bytes[3] = 0x0F;
    bytes[515] = 0xF0;
    let widest = Case {
        name: "widest",
        bytes: &bytes,
        n: 0,
        m: 0,
    };
    widest.ask(rt)?;
    widest.degree(rt, 4096)?;
    widest.degree(rt, 4097)
}

// File, with the buffer of this length after it. It holds marks at first: a refused call leaves them.
fn file(
    rt: &impl Print,
    name: &str,
    degrees: &[u16],
    neighbours: &[u16],
    length: usize,
) -> io::Result<()>
    requires { length ≤ 22 }
{
    let mut marks = [0xA5; 22];
    let bytes = &mut marks[..length];
    let answer = verdict(record::file(degrees, neighbours, bytes).map_err(number_of));
    print!(rt; "{name} file {length}: {answer},")?;
    show_bytes(rt, bytes)
}

// Records from lists; and 17: a byte short, a byte long.
fn filed(rt: &impl Print) -> io::Result<()> {
    let degrees = [2u16, 2, 3, 1, 1, 1];
    let neighbours = [3u16, 2, 1, 3, 2, 4, 1, 3, 6, 5];
    for length in [21, 20, 22] {
        file(rt, "sample", &degrees, &neighbours, length)?;
    }
    file(rt, "empty", &[], &[], 4)?;
    file(rt, "apart", &[0, 1, 0, 1, 0], &[4, 2], 8)?;
    file(rt, "triple", &[3, 3], &[2, 2, 2, 1, 1, 1], 14)
}

// 16: an odd sum; one that is the number of neighbours in 16 bits alone; a degree too many. 6: a neighbour that is 0,
// or right in 12 bits alone. 8: a wire at one end only; with 17 too; and with 6 behind it, which is told.
fn not_filed(rt: &impl Print) -> io::Result<()> {
    file(rt, "odd", &[1, 1, 1], &[2, 1, 2], 9)?;
    file(rt, "wrapped", &[65535, 3], &[2, 1], 7)?;
    file(rt, "many", &[0u16; 4097], &[], 4)?;
    file(rt, "zero", &[1, 1], &[2, 0], 7)?;
    file(rt, "cut", &[1, 1], &[2, 4097], 7)?;
    file(rt, "one_sided", &[2, 1, 1], &[2, 3, 1, 2], 11)?;
    file(rt, "8_and_17", &[2, 1, 1], &[2, 3, 1, 2], 10)?;
    file(rt, "6_after_8", &[2, 2], &[2, 2, 1, 3], 11)
}

fn main(rt: HostRuntime) -> io::Result<()> {
    accepted(&rt)?;
    doubled(&rt)?;
    too_short(&rt)?;
    over_limit(&rt)?;
    wrong_length(&rt)?;
    bad_unary(&rt)?;
    spare_set(&rt)?;
    stray(&rt)?;
    one_sided(&rt)?;
    unequal(&rt)?;
    several(&rt)?;
    widest(&rt)?;
    filed(&rt)?;
    not_filed(&rt)
}
