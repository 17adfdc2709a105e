// The neighbour fields.
ghost use Rattle.std.specs.Prelude.{◌≡◌, ◌+◌, ◌*◌, ◌≤◌, ◌<◌, length, get_or};
ghost use Rattle.bits.specs.Bits.{bits as bits_of};
ghost use Rattle.record.specs.Record.{fields_from, fields as fields_of};
ghost use Rattle.record.specs.Steps.{Reading};

use super::layout::Layout;
use adjacency::cells::put;

// Field p, from 0.
pub fn field(layout: &Layout, p: usize) -> usize
    requires { p < 2 * layout.now.m }
    ensures { (result ≡ get_or (fields_of layout.now.bytes.now) p 0) × (result < 4096) }
{
    bits::fields::read::<12>(layout.bytes, 28 + (layout.n + 2 * layout.m) + 12 * p)
}

// Four more fields, from field i on, where another one stands behind them: so a whole word does.
fn read_four(bytes: &[u8], start: usize, list: &mut [u16], i: usize)
    requires i_bound { (start + 12 * (i + 5) ≤ 8 * length bytes.now) × (i + 4 ≤ length list.old)
        × (i ≤ 32768) × (start ≤ 65536) }
    requires reading { Reading (bits_of bytes.now) start (length list.old) list.old i }
    ensures { Reading (bits_of bytes.now) start (length list.old) list.new (i + 4) }
{
    let x = bits::fields::read_four(bytes, start + 12 * i);
    put(list, i, x.a);
    put(list, i + 1, x.b);
    put(list, i + 2, x.c);
    put(list, i + 3, x.d);
}

// The fields from bit `start` on, as many as the list has room for: in fours while another one stands behind them, and
// the last ones by themselves.
pub fn read_fields(bytes: &[u8], start: usize, list: &mut [u16])
    requires { (start + 12 * length list.old ≤ 8 * length bytes.now) × (length list.old ≤ 32768) × (start ≤ 65536) }
    ensures { list.new ≡ fields_from (bits_of bytes.now) start (length list.old) }
{
    let fours = list.len().saturating_sub(1) / 4;
    for k in 0..fours {
        read_four(bytes, start, list, 4 * k);
    }
    for i in 4 * fours..list.len() {
        put(list, i, bits::fields::read::<12>(bytes, start + 12 * i));
    }
}
