// What the program prints.
ghost use Rattle.std.specs.Prelude.{◌≡◌, ◌≤◌, ◌+◌, ◌++◌, length, Some, OnOk};
ghost use Rattle.arrayvec.specs.ArrayString.{array_string_len};
ghost use Rattle.loomlist.specs.Text.{line, listing};

use arrayvec::ArrayString;
use record::Refusal;
use std::fmt::Write as _;
use std::{fmt, io};

// One line, for a call with an argument. Where it can't be written there is nowhere to say so.
pub fn usage(rt: &HostRuntime) {
    eprintln!(rt; "usage: loomlist < RECORD").ok();
}

// What failed and why, in one line: the system's words, without the error's number, which std puts behind them in
// brackets.
pub fn failed(rt: &HostRuntime, what: &str, error: io::Error) {
    let told = format!(in rt.alloc(); "{error}");
    let words = match &told {
        Ok(told) => told
            .rsplit_once(" (")
            .map_or(told.as_str(), |(words, _)| words),
        Err(_) => "out of memory",
    };
    eprintln!(rt; "loomlist: {what}: {words}").ok();
}

// What Table writes of a terminal.
#[derive(Clone, Copy)]
struct Line {
    terminal: usize,
    visit: u16,
    parent: u16,
    count: u16,
    head: u16,
}

impl fmt::Display for Line {
    ghost output = { λ l. Some (line l.terminal l.visit l.parent l.count l.head) };

    fn fmt<W: fmt::Write>(&self, f: &mut fmt::Formatter<W>) -> fmt::Result {
        write!(
            f,
            "{} {} {} {} {}",
            self.terminal, self.visit, self.parent, self.count, self.head
        )
    }
}

// What Table writes of a record, and the loop figure.
#[derive(Clone, Copy)]
pub struct Listing<'a> {
    pub visits: &'a [u16],
    pub parents: &'a [u16],
    pub counts: &'a [u16],
    pub heads: &'a [u16],
    pub loops: usize,
    ghost few: { length visits.now ≤ 4096 },
    ghost parents_fit: { length parents.now ≡ length visits.now },
    ghost counts_fit: { length counts.now ≡ length visits.now },
    ghost heads_fit: { length heads.now ≡ length visits.now },
    ghost fits: { length (listing
        visits.now parents.now counts.now heads.now (length visits.now) loops) ≤ 122943 },
}

impl<'a> Listing<'a> {
    // The text has at most 36 bytes, 30 for each terminal, and 27.
    pub fn new(
        visits: &'a [u16],
        parents: &'a [u16],
        counts: &'a [u16],
        heads: &'a [u16],
        loops: usize,
    ) -> Self
        requires few { length visits.now ≤ 4096 }
        requires parents_fit { length parents.now ≡ length visits.now }
        requires counts_fit { length counts.now ≡ length visits.now }
        requires heads_fit { length heads.now ≡ length visits.now }
        ensures visits { result.visits.now ≡ visits.now }
        ensures parents { result.parents.now ≡ parents.now }
        ensures counts { result.counts.now ≡ counts.now }
        ensures heads { result.heads.now ≡ heads.now }
        ensures loops { result.loops ≡ loops }
    {
        Listing {
            visits,
            parents,
            counts,
            heads,
            loops,
        }
    }
}

// A heading, a line for each terminal, and the loop figure's.
impl fmt::Display for Listing<'_> {
    ghost output = { λ l. Some (listing
        l.visits.now l.parents.now l.counts.now l.heads.now (length l.visits.now) l.loops) };

    fn fmt<W: fmt::Write>(&self, f: &mut fmt::Formatter<W>) -> fmt::Result {
        writeln!(f, "terminal visit parent children head")?;
        for v in 0..self.visits.len() {
            let line = Line {
                terminal: v + 1,
                visit: self.visits[v],
                parent: self.parents[v],
                count: self.counts[v],
                head: self.heads[v],
            };
            writeln!(f, "{line}")?;
        }
        writeln!(f, "loops {}", self.loops)
    }
}

// Puts a listing behind a text that has room for it.
fn put<const ROOM: usize>(text: &mut ArrayString<ROOM>, l: &Listing) -> fmt::Result
    requires { array_string_len text.old
        + length (listing
        l.now.visits.now l.now.parents.now l.now.counts.now l.now.heads.now
        (length l.now.visits.now) l.now.loops) ≤ ROOM }
    ensures { OnOk result (text.new.bytes ≡ text.old.bytes ++ listing
        l.now.visits.now l.now.parents.now l.now.counts.now l.now.heads.now
        (length l.now.visits.now) l.now.loops) }
{
    write!(text, "{l}")
}

// Prints the listing. It is put together first, and goes out in one piece: the room holds every listing, and is in this
// function's frame alone.
#[inline(never)]
pub fn accepted(rt: &HostRuntime, listing: &Listing) -> io::Result<()> {
    let mut text = ArrayString::<122943>::new();
    put(&mut text, listing)?;
    rt.write_all(text.as_bytes())
}

pub fn refused(rt: &HostRuntime, r: Refusal) -> io::Result<()> {
    println!(rt; "refused {}", record::number_of(r))
}
