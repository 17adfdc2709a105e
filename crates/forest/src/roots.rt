// The roots, counted in a list of parents, and the loop figure that they give.
ghost use Rattle.std.specs.Prelude.{◌≡◌, ◌+◌, ◌-◌, ◌≤◌, length};
ghost use Rattle.forest.specs.Operations.{roots_in};

// How many of the parents are 0: a root has none. A chain of `filter` and `count` takes twice the instructions.
fn count_roots(parents: &[u16]) -> usize
    ensures { (result ≡ roots_in parents.now) × (result ≤ length parents.now) }
{
    let mut roots = 0;
    for parent in parents {
        if *parent == 0 {
            roots += 1;
        }
    }
    roots
}

// m − n plus the number of roots, by the parents of all n vertices.
pub fn loops_by(m: usize, parents: &[u16]) -> usize
    requires { (m ≤ 16384) × (length parents.now ≤ 4096) × (length parents.now ≤ m + roots_in parents.now) }
    ensures { result ≡ m + roots_in parents.now - length parents.now }
{
    m + count_roots(parents) - parents.len()
}
