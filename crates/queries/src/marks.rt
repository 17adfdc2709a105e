// A mark of B, and stored numbers.
ghost use Rattle.std.specs.Prelude.{◌≡◌, false, ◌+◌, ◌*◌, ◌≤◌, ◌<◌, get_or};
ghost use Rattle.queries.specs.View.{section_of, number_of};
ghost use Rattle.queries.specs.Steps.{StoredFour};

use super::indexed::Indexed;
use bits::fields::Four;
use forest::lengths::mark_bytes;

// A mark of B.
pub fn bridge_mark(i: &Indexed, bit: usize) -> bool
    requires { bit < i.now.layout.n + 2 * i.now.layout.m }
    ensures { result ≡ get_or (section_of i.now.layout.n i.now.layout.m i.now.index.now 2) bit false }
{
    bits::fields::read_bit(i.index, 8 * (2 * mark_bytes(i.layout.n, i.layout.m)) + bit)
}

// The number stored for vertex u.
pub fn stored(i: &Indexed, u: usize) -> usize
    requires { u < i.now.layout.n }
    ensures { (result ≡ number_of i.now.layout.n i.now.layout.m i.now.index.now u) × (result < 4096) }
{
    bits::fields::read::<12>(
        i.index,
        8 * (3 * mark_bytes(i.layout.n, i.layout.m)) + 12 * u,
    )
}

// The numbers stored for vertex u and the three after it, where another one stands behind them: so a whole word does.
pub fn stored_four(i: &Indexed, u: usize) -> Four
    requires { u + 5 ≤ i.now.layout.n }
    ensures { StoredFour i.now.index.now i.now.layout.n i.now.layout.m u result.a result.b result.c result.d }
{
    bits::fields::read_four(
        i.index,
        8 * (3 * mark_bytes(i.layout.n, i.layout.m)) + 12 * u,
    )
}
