// How many bytes an index has.
ghost use Rattle.std.specs.Prelude.{◌≡◌, ◌≤◌};
ghost use Rattle.forest.specs.Index.{mark_bytes as mark_bytes_of, index_length as index_length_of};

// The bytes of a section of marks.
#[tactic(auto, unfolding(crate::specs::Index::mark_bytes))]
pub fn mark_bytes(n: usize, m: usize) -> usize
    requires { (n ≤ 4096) × (m ≤ 16384) }
    ensures { (result ≡ mark_bytes_of n m) × (result ≤ 4608) }
{
    (n + 2 * m + 7) / 8
}

// The bytes of the index.
#[tactic(auto, unfolding(crate::specs::Index::index_length, crate::specs::Index::number_bytes))]
pub fn index_length(n: usize, m: usize) -> usize
    requires { (n ≤ 4096) × (m ≤ 16384) }
    ensures { result ≡ index_length_of n m }
{
    3 * mark_bytes(n, m) + (12 * n + 7) / 8
}
