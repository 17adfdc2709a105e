// Lookup, of a list of terminals: a line with the list, the lengths of the answer lists, the verdict, and these lists
// after the call.
ghost use Rattle.std.specs.Prelude.{◌≤◌};

use crate::records::*;
use print::verdict;
use std::{fmt, io};

// The numbers of a list, of a longer one the first six.
#[derive(Clone, Copy)]
struct Front<'a>(&'a [u16]);

impl fmt::Display for Front<'_> {
    fn fmt<W: fmt::Write>(&self, f: &mut fmt::Formatter<W>) -> fmt::Result {
        for k in self.0.iter().take(6) {
            write!(f, " {k}")?;
        }
        Ok(())
    }
}

// A record and an index.
#[derive(Clone, Copy)]
struct Case<'a> {
    name: &'a str,
    bytes: &'a [u8],
    index: &'a [u8],
}

impl Case<'_> {
    // Lookup, with the answer lists after it. They have these lengths and hold marks at first, 901 and 911: a refused
    // call leaves them.
    fn look_up(&self, rt: &impl Print, list: &[u16], heads: usize, visits: usize) -> io::Result<()>
        requires { (heads ≤ 513) × (visits ≤ 513) }
    {
        let mut first = [901; 513];
        let mut second = [911; 513];
        let heads = &mut first[..heads];
        let visits = &mut second[..visits];
        let done = queries::lookup(self.bytes, self.index, list, heads, visits);
        let answer = verdict(done.map_err(record::number_of));
        print!(rt; "{} lookup{} to", self.name, Front(list))?;
        print!(rt; " {} {}: {answer}", heads.len(), visits.len())?;
        println!(rt; ",{},{}", Front(heads), Front(visits))
    }

    // All terminals of a record of six; some again; none; numbers that are no terminal last, in front and among others;
    // and answer lists that are too short or too long, also where a terminal would be refused.
    fn run(&self, rt: &impl Print) -> io::Result<()> {
        self.look_up(rt, &[1, 2, 3, 4, 5, 6], 6, 6)?;
        self.look_up(rt, &[4, 1, 4, 4], 4, 4)?;
        self.look_up(rt, &[], 0, 0)?;
        self.look_up(rt, &[1, 5, 3, 0], 4, 4)?;
        self.look_up(rt, &[0, 3], 2, 2)?;
        self.look_up(rt, &[4, 7, 1], 3, 3)?;
        self.look_up(rt, &[1, 2, 65535], 3, 3)?;
        self.look_up(rt, &[1, 5], 1, 2)?;
        self.look_up(rt, &[1, 5], 2, 3)?;
        self.look_up(rt, &[0, 3], 3, 2)?;
        self.look_up(rt, &[3], 1, 0)
    }
}

// The sample with its index; with one on which Head refuses 3 and 2; with one on which Visit alone refuses 2 and 4.
// Then 10; 1; and 3 before 10.
pub fn runs(rt: &impl Print) -> io::Result<()> {
    let cases = [
        Case {
            name: "sample",
            bytes: SAMPLE,
            index: SAMPLE_INDEX,
        },
        Case {
            name: "two_marks",
            bytes: SAMPLE,
            index: TWO_MARKS,
        },
        Case {
            name: "numbers",
            bytes: SAMPLE,
            index: NUMBERS,
        },
        Case {
            name: "index_short",
            bytes: SAMPLE,
            index: SHORT_INDEX,
        },
        Case {
            name: "three_bytes",
            bytes: THREE_BYTES,
            index: b"",
        },
        Case {
            name: "short_both",
            bytes: SHORT,
            index: SHORT_INDEX,
        },
    ];
    for case in &cases {
        case.run(rt)?;
    }
    Ok(())
}

// The most terminals; 11 for the last of them; one terminal more.
pub fn longest(rt: &impl Print) -> io::Result<()> {
    let sample = Case {
        name: "sample",
        bytes: SAMPLE,
        index: SAMPLE_INDEX,
    };
    let mut most = [2; 512];
    sample.look_up(rt, &most, 512, 512)?;
    most[511] = 7;
    sample.look_up(rt, &most, 512, 512)?;
    let more = [2; 513];
    sample.look_up(rt, &more, 513, 513)
}
