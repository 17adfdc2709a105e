// The section of the visit numbers.
ghost use Rattle.std.specs.Prelude.{◌≡◌, map, ◌+◌, ◌-◌, ◌*◌, ◌≤◌, ◌<◌, length, get_or};
ghost use Rattle.bits.specs.Bits.{bits, put, pack};
ghost use Rattle.record.specs.Record.{field_bits};
ghost use Rattle.forest.specs.Index.{number_bytes};
ghost use Rattle.forest.specs.Numbered.{Visits};

use super::Dfi;
use adjacency::cells::get;

// The visit number of vertex v.
fn visit(visits: &[u16], v: usize) -> Dfi
    requires { (Visits visits.now) × (v < length visits.now) }
    ensures { (result.0 ≡ get_or visits.now v 0) × (1 ≤ result.0) × (result.0 ≤ 4096) }
{
    Dfi(get(visits, v))
}

// The fields v and v + 1, in the three bytes from byte `at` on, become visit numbers less 1.
fn write_pair(section: &mut [u8], at: usize, a: Dfi, b: Dfi)
    requires { (at + 3 ≤ length section.old) × (1 ≤ a.0) × (a.0 ≤ 4096) × (1 ≤ b.0) × (b.0 ≤ 4096) }
    ensures section_after { bits section.new
        ≡ put 12 (b.0 - 1) (put 12 (a.0 - 1) (bits section.old) (8 * at)) (8 * at + 12) }
    ensures section_len_unchanged { length section.new ≡ length section.old }
{
    bits::fields::write_two(section, at, a.0 - 1, b.0 - 1);
}

// Field v becomes a visit number less 1.
fn write_last(section: &mut [u8], v: usize, d: Dfi)
    requires { (v < 4096) × (12 * v + 12 ≤ 8 * length section.old) × (1 ≤ d.0) × (d.0 ≤ 4096) }
    ensures section_after { bits section.new ≡ put 12 (d.0 - 1) (bits section.old) (12 * v) }
    ensures section_len_unchanged { length section.new ≡ length section.old }
{
    bits::fields::write::<12>(section, 12 * v, d.0 - 1);
}

// Writes the visit numbers less 1, 12 bits each, two in three bytes, and fills the last byte up with zero bits. What
// the section held before does not matter.
pub fn write_numbers(visits: &[u16], section: &mut [u8])
    requires { (Visits visits.now) × (length section.old ≡ number_bytes (length visits.now)) }
    ensures { section.new ≡ pack (field_bits (map (λ x. x - 1) visits.now)) }
{
    section.fill(0);
    let n = visits.len();
    for i in 0..n / 2 {
        write_pair(
            section,
            3 * i,
            visit(visits, 2 * i),
            visit(visits, 2 * i + 1),
        );
    }
    if n % 2 == 1 {
        write_last(section, n - 1, visit(visits, n - 1));
    }
}
