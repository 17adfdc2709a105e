// A graph's adjacency lists in two arrays.
ghost use Rattle.adjacency.specs.Arrays.{Divided};

// Where the block of each vertex starts, and the neighbours of all blocks in a row.
#[derive(Clone, Copy)]
pub struct Lists<'a> {
    pub starts: &'a [u16],
    pub nbrs: &'a [u16],
    pub ghost divided: { Divided starts.now nbrs.now },
}
