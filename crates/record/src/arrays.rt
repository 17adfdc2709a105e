// The graph of a record in two arrays: the starts of the blocks, and the neighbours in a row.
ghost use Rattle.std.specs.Prelude.{◌≡◌, ◌+◌, ◌*◌, length};
ghost use Rattle.record.specs.Answers.{verdict};
ghost use Rattle.record.specs.Operations.{check as check_of};
ghost use Rattle.record.specs.Steps.{ArraysOf, Lent};

use super::Refusal;
use super::fields::read_fields;
use super::layout::{LaidOut, Layout};
use super::rules::try_rules;
use super::starts::fill_starts;
use adjacency::lists::Lists;

// The two arrays are filled.
fn fill_arrays(l: &Layout, starts: &mut [u16], nbrs: &mut [u16])
    requires { (length starts.old ≡ l.now.n + 1) × (length nbrs.old ≡ 2 * l.now.m) }
    ensures { ArraysOf l.now.bytes.now starts.new nbrs.new l.now.n l.now.m }
{
    fill_starts(l, starts);
    read_fields(l.bytes, 28 + (l.n + 2 * l.m), nbrs);
}

// Check, once order R and rule 5 let the record pass, with its arrays handed on.
pub fn check_arrays(
    laid: &LaidOut,
    starts: &mut [u16],
    nbrs: &mut [u16],
    reverse: &mut [u16],
    next: &mut [u16],
) -> Result<(), Refusal>
    requires { Lent laid.now.layout.n laid.now.layout.m starts.old nbrs.old reverse.old next.old }
    ensures { (verdict result ≡ check_of laid.now.layout.bytes.now)
        × (ArraysOf laid.now.layout.bytes.now starts.new nbrs.new laid.now.layout.n laid.now.layout.m) }
{
    fill_arrays(&laid.layout, starts, nbrs);
    try_rules(&Lists { starts, nbrs }, reverse, next)
}
