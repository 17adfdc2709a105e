// The listing of the record on standard input (document 01, `loomlist`): what the search forest says of each terminal,
// or `refused` and the refusal's number. An error of a read or a write is told on standard error.
#![tactic(auto)]

ghost use Rattle.std.specs.Prelude.{◌≡◌};
ghost use Rattle.record.specs.Answers.{answered};
ghost use Rattle.record.specs.Operations.{Accepted};
ghost use Rattle.forest.specs.Operations.{first_start as first_start_of, loop_figure};
ghost use Rattle.queries.specs.Table.{table_of};

use forest::roots::loops_by;
use forest::start::first_start;
use listing::Listing;
use record::Refusal;
use record::header::order_r;
use record::layout::Layout;
use std::env::{Env, FillError};
use std::io;

mod input; // input.rt: standard input
mod listing; // listing.rt: what is printed

// The loop figure, from the parents that Table wrote: no second search.
fn figure(layout: &Layout, parents: &[u16]) -> usize
    requires accepted { Accepted layout.now.bytes.now }
    requires written { parents.now ≡ (table_of layout.now.bytes.now (first_start_of layout.now.n)).parents }
    ensures { answered result ≡ loop_figure layout.now.bytes.now }
{
    loops_by(layout.m, parents)
}

// The table of a record, from its first terminal on, and the listing, which may fail to be printed.
fn list(rt: &HostRuntime, bytes: &[u8]) -> Result<io::Result<()>, Refusal> {
    let layout = order_r(bytes)?;
    let n = layout.n;
    let mut work = [0u16; 32768];
    let mut visits = [0u16; 4096];
    let mut parents = [0u16; 4096];
    let mut counts = [0u16; 4096];
    let mut heads = [0u16; 4096];
    let work = &mut work[..8 * n];
    let visits = &mut visits[..n];
    let parents = &mut parents[..n];
    let counts = &mut counts[..n];
    let heads = &mut heads[..n];
    queries::table(
        layout.bytes,
        first_start(n),
        work,
        visits,
        parents,
        counts,
        heads,
    )?;
    let loops = figure(&layout, parents);
    let listing = Listing::new(visits, parents, counts, heads, loops);
    Ok(listing::accepted(rt, &listing))
}

fn run(rt: &HostRuntime, bytes: &[u8]) -> io::Result<()> {
    list(rt, bytes).unwrap_or_else(|r| listing::refused(rt, r))
}

// Whether the program was called with an argument.
fn has_argument(rt: &HostRuntime) -> bool {
    !matches!(rt.arg(1, &mut [0u8; 1]), Err(FillError::NotPresent))
}

// There is room for a byte more than the longest record has, so that a longer input is refused as one of a wrong
// length.
fn main(rt: HostRuntime) {
    if has_argument(&rt) {
        listing::usage(&rt);
        return;
    }
    let mut room = [0u8; 53765];
    match input::read_all(&mut rt.stdin(), &mut room) {
        Err(error) => listing::failed(&rt, "standard input", error),
        Ok(len) => {
            if let Err(error) = run(&rt, &room[..len]) {
                listing::failed(&rt, "standard output", error);
            }
        }
    }
}
