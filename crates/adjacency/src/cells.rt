// Cells of 16 bits: read and written as numbers of the machine's width, and copied.
ghost use Rattle.std.specs.Prelude.{◌≡◌, ◌<◌, length, get_or, set};

// Cell i.
pub fn get(cells: &[u16], i: usize) -> usize
    requires { i < length cells.now }
    ensures { (result ≡ get_or cells.now i 0) × (result < 65536) }
{
    usize::from(cells[i])
}

// Cell i becomes x.
pub fn put(cells: &mut [u16], i: usize, x: usize)
    requires { (i < length cells.old) × (x < 65536) }
    ensures { cells.new ≡ set cells.old i x }
{
    cells[i] = x as u16;
}

// All cells of `to` become those of `from`. The language's own copy calls `memmove`, which the archive for C is not to
// need.
pub fn copy(from: &[u16], to: &mut [u16])
    requires { length to.old ≡ length from.now }
    ensures { to.new ≡ from.now }
{
    for (i, x) in from.iter().enumerate() {
        to[i] = *x;
    }
}
