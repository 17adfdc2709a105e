// A list of degrees and one list of neighbours, numbers from 1: rule 16, and the two arrays that the lists give.
ghost use Rattle.std.specs.Prelude.{◌≡◌, map, ◌+◌, ◌/◌, ◌≤◌, ◌<◌, length};
ghost use Rattle.adjacency.specs.Reverse.{total};
ghost use Rattle.record.specs.Starts.{sums_of};
ghost use Rattle.record.specs.Answers.{verdict};
ghost use Rattle.record.specs.Operations.{check_graph};
ghost use Rattle.record.specs.Filing.{bad_lists as bad_lists_of};
ghost use Rattle.record.specs.Steps.{Listed, vertex_of as the_vertex_of, graph_from, Lent};

use super::Refusal;
use super::rules::try_rules;
use adjacency::cells::put;
use adjacency::lists::Lists;

// Two lists that rule 16 lets pass: the degrees of the terminals, and the neighbours of all in a row.
#[derive(Clone, Copy)]
pub struct Listing<'a> {
    pub degrees: &'a [u16],
    pub neighbours: &'a [u16],
    pub ghost listed: { Listed degrees.now neighbours.now },
}

// The sum of at most 4,096 degrees.
fn sum_of(degrees: &[u16]) -> usize
    requires { length degrees.now ≤ 4096 }
    ensures { result ≡ total degrees.now }
{
    degrees.iter().map(|degree| usize::from(*degree)).sum()
}

// Rule 16.
#[tactic(auto, unfolding(crate::specs::Filing::bad_lists, crate::specs::Operations::other_length))]
pub fn bad_lists(degrees: &[u16], neighbours: &[u16]) -> bool
    ensures { result ≡ bad_lists_of degrees.now neighbours.now }
{
    if 4096 < degrees.len() {
        return true;
    }
    let sum = sum_of(degrees);
    sum % 2 == 1 || 32768 < sum || neighbours.len() != sum
}

// The starts of the blocks, and the end of the last one: the sums of the degrees before them.
fn fill_starts(lists: &Listing, starts: &mut [u16])
    requires { length starts.old ≡ length lists.now.degrees.now + 1 }
    ensures { starts.new ≡ sums_of lists.now.degrees.now }
{
    let mut start = 0;
    for (v, degree) in lists.degrees.iter().enumerate() {
        put(starts, v, start);
        start += usize::from(*degree);
    }
    put(starts, lists.degrees.len(), start);
}

// A neighbour counted from 0: 0, which is no terminal, becomes 65,535, which is no vertex.
fn vertex_of(x: u16) -> u16
    ensures { result ≡ the_vertex_of x }
{
    x.wrapping_sub(1)
}

// All neighbours, counted so.
fn fill_neighbours(neighbours: &[u16], nbrs: &mut [u16])
    requires { length nbrs.old ≡ length neighbours.now }
    ensures { nbrs.new ≡ map the_vertex_of neighbours.now }
{
    for (i, v) in neighbours.iter().enumerate() {
        nbrs[i] = vertex_of(*v);
    }
}

// Rules 6 and 8 of the blocks that the lists give.
pub fn try_lists(
    lists: &Listing,
    starts: &mut [u16],
    nbrs: &mut [u16],
    reverse: &mut [u16],
    next: &mut [u16],
) -> Result<(), Refusal>
    requires { Lent (length lists.now.degrees.now) (length lists.now.neighbours.now / 2)
        starts.old nbrs.old reverse.old next.old }
    ensures { verdict result ≡ check_graph (graph_from lists.now.degrees.now lists.now.neighbours.now) }
{
    fill_starts(lists, starts);
    fill_neighbours(lists.neighbours, nbrs);
    try_rules(&Lists { starts, nbrs }, reverse, next)
}
