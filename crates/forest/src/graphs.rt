// A graph in two arrays, as the search, the lowpoints and the sections take it.
ghost use Rattle.std.specs.Prelude.{◌≡◌, ◌+◌, ◌*◌, length};
ghost use Rattle.graph.specs.Graph.{WellFormed};
ghost use Rattle.adjacency.specs.Arrays.{cut, Arrays};
ghost use Rattle.forest.specs.Steps.{stride};

// Where the block of each of n vertices starts, and the neighbours of all blocks in a row, two for each of m wires. The
// parts of a work slice stand s cells apart.
#[derive(Clone, Copy)]
pub struct Graph<'a> {
    pub starts: &'a [u16],
    pub nbrs: &'a [u16],
    pub n: usize,
    pub m: usize,
    pub s: usize,
    pub ghost arrays: { Arrays starts.now nbrs.now },
    pub ghost formed: { WellFormed (cut starts.now nbrs.now) },
    pub ghost sized: { n + 1 ≡ length starts.now },
    pub ghost places: { length nbrs.now ≡ 2 * m },
    pub ghost apart: { s ≡ stride n },
}
