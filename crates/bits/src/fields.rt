// Bits and fields, read and written by shifts and masks at any starting bit. Here bits count from 0 for the first bit
// of the first byte.
ghost use Rattle.std.specs.Prelude.{◌≡◌, true, false, ◌+◌, ◌*◌, ◌/◌, ◌%◌, ◌^◌, ◌<◌, ◌≤◌, length, get_or, set};
ghost use Rattle.bits.specs.Bits.{bits, field, put};
ghost use Rattle.bits.specs.Steps.{joined, two, three, FourAt, four_of, front_of as the_front_of, Blank, replace};
ghost use Rattle.bits.specs.Formula.{field_formula};

use super::words::{put_word, short_word, word};

// The bit `index`.
pub fn read_bit(bytes: &[u8], index: usize) -> bool
    requires { index < 8 * length bytes.now }
    ensures { result ≡ get_or (bits bytes.now) index false }
{
    (bytes[index / 8] >> (7 - index % 8)) & 1 == 1
}

// Bytes `at` and `next`, joined.
fn join2(bytes: &[u8], at: usize, next: usize) -> u64
    requires { (at < length bytes.now) × (next < length bytes.now) }
    ensures { (result ≡ joined 0 (two bytes.now at next)) × (result < 65536) }
{
    u64::from(u16::from_be_bytes([bytes[at], bytes[next]]))
}

// Byte `at`, the next, and byte `last`, joined.
fn join3(bytes: &[u8], at: usize, last: usize) -> u64
    requires { (at + 2 ≤ length bytes.now) × (last < length bytes.now) }
    ensures { (result ≡ joined 0 (three bytes.now at last)) × (result < 16777216) }
{
    u64::from(u32::from_be_bytes([0, bytes[at], bytes[at + 1], bytes[last]]))
}

// The `width` bits of x above its `low` lowest.
fn cut(x: u64, low: usize, width: usize) -> usize
    requires { (low < 64) × (width < 64) }
    ensures { (result ≡ x / 2 ^ low % 2 ^ width) × (result < 2 ^ width) }
{
    ((x >> low) & ((1 << width) - 1)) as usize
}

// The field of WIDTH bits from bit `start` on, by one formula in `start`. Three bytes are joined: the one in which it
// begins, the next, and the one in which it ends. Where that is the next again, its second copy is shifted out.
fn formula<const WIDTH: usize>(bytes: &[u8], start: usize) -> usize
    requires { (9 ≤ WIDTH) × (WIDTH ≤ 16) × (start + WIDTH ≤ 8 * length bytes.now) }
    ensures { result ≡ field_formula WIDTH bytes.now start }
{
    let first = start / 8;
    let off = start % 8;
    let last = first + (off + WIDTH - 1) / 8;
    cut(join3(bytes, first, last), 24 - WIDTH - off, WIDTH)
}

// The field of WIDTH bits from bit `start` on: what the formula gives is the field.
pub fn read<const WIDTH: usize>(bytes: &[u8], start: usize) -> usize
    requires { (9 ≤ WIDTH) × (WIDTH ≤ 16) × (start + WIDTH ≤ 8 * length bytes.now) }
    ensures { (result ≡ field WIDTH (bits bytes.now) start) × (result < 2 ^ WIDTH) }
{
    formula::<WIDTH>(bytes, start)
}

// The field of `width` bits from bit `start` on, where the 64 bits from its first byte on hold it.
pub fn read_long(bytes: &[u8], start: usize, width: usize) -> u64
    requires { (1 ≤ width) × (start % 8 + width ≤ 64) × (start + width ≤ 8 * length bytes.now) }
    ensures { result ≡ field width (bits bytes.now) start }
{
    short_word(bytes, start / 8, start % 8 + width) & (0xFFFFFFFFFFFFFFFF >> (64 - width))
}

// Four fields of 12 bits in a row.
#[derive(Clone, Copy)]
pub struct Four {
    pub a: usize,
    pub b: usize,
    pub c: usize,
    pub d: usize,
}

// The four fields of 12 bits from bit `start` on, where the eight bytes from their first byte on lie in the slice.
pub fn read_four(bytes: &[u8], start: usize) -> Four
    requires { start / 8 + 8 ≤ length bytes.now }
    ensures { FourAt (bits bytes.now) start result.a result.b result.c result.d }
{
    let x = word(bytes, start / 8) >> (16 - start % 8);
    Four {
        a: cut(x, 36, 12),
        b: cut(x, 24, 12),
        c: cut(x, 12, 12),
        d: cut(x, 0, 12),
    }
}

// x with v in the `width` bits above its `low` lowest.
fn replaced(x: u64, width: usize, low: usize, v: u64) -> u64
    requires { (width + low ≤ 24) × (x < 2 ^ 24) × (v < 2 ^ width) }
    ensures { result ≡ replace x width low v }
{
    let top = width + low;
    ((x >> top) << top) | (v << low) | (x & ((1 << low) - 1))
}

// The bit `index` becomes a one, and nothing else changes.
pub fn set_bit(bytes: &mut [u8], index: usize)
    requires { index < 8 * length bytes.old }
    ensures { (bits bytes.new ≡ set (bits bytes.old) index true)
        × (length bytes.new ≡ length bytes.old) }
{
    let at = index / 8;
    bytes[at] = bytes[at] | (128 >> (index % 8));
}

// The first bit becomes a zero, and nothing else changes.
pub fn clear_first(bytes: &mut [u8])
    requires { 0 < length bytes.old }
    ensures { (bits bytes.new ≡ set (bits bytes.old) 0 false)
        × (length bytes.new ≡ length bytes.old) }
{
    bytes[0] = bytes[0] & 0x7F;
}

// The field of WIDTH bits from bit `start` on becomes v, and nothing else changes. The two bytes or the three that hold
// it are joined.
pub fn write<const WIDTH: usize>(bytes: &mut [u8], start: usize, v: usize)
    requires { (9 ≤ WIDTH) × (WIDTH ≤ 16) × (start + WIDTH ≤ 8 * length bytes.old) × (v < 2 ^ WIDTH) }
    ensures { (bits bytes.new ≡ put WIDTH v (bits bytes.old) start)
        × (length bytes.new ≡ length bytes.old) }
{
    let first = start / 8;
    let end = start % 8 + WIDTH;
    let next = first + 1;
    if end <= 16 {
        let x = join2(bytes, first, next);
        let y = replaced(x, WIDTH, 16 - end, v as u64).to_be_bytes();
        bytes[first] = y[6];
        bytes[next] = y[7];
    } else {
        let last = first + 2;
        let x = join3(bytes, first, last);
        let y = replaced(x, WIDTH, 24 - end, v as u64).to_be_bytes();
        bytes[first] = y[5];
        bytes[next] = y[6];
        bytes[last] = y[7];
    }
}

// The two fields of 12 bits in the three bytes from byte `at` on become a and b, and nothing else changes.
pub fn write_two(bytes: &mut [u8], at: usize, a: usize, b: usize)
    requires { (at + 3 ≤ length bytes.old) × (a < 4096) × (b < 4096) }
    ensures { (bits bytes.new ≡ put 12 b (put 12 a (bits bytes.old) (8 * at)) (8 * at + 12))
        × (length bytes.new ≡ length bytes.old) }
{
    let x = ((a as u64) << 12 | (b as u64)).to_be_bytes();
    bytes[at] = x[5];
    bytes[at + 1] = x[6];
    bytes[at + 2] = x[7];
}

// Four numbers of 12 bits, joined.
fn join_four(x: Four) -> u64
    requires { (x.a < 4096) × (x.b < 4096) × (x.c < 4096) × (x.d < 4096) }
    ensures { (result ≡ four_of x.a x.b x.c x.d) × (result < 2 ^ 48) }
{
    let high = (x.a as u64) << 12 | (x.b as u64);
    let low = (x.c as u64) << 12 | (x.d as u64);
    high << 24 | low
}

// What stands before bit `start` in its byte; nothing where no byte has that bit.
pub fn front_of(bytes: &[u8], start: usize) -> u64
    requires { start ≤ 8 * length bytes.now }
    ensures { result ≡ the_front_of (bits bytes.now) start }
{
    let at = start / 8;
    if at < bytes.len() {
        u64::from(bytes[at]) >> (8 - start % 8)
    } else {
        0
    }
}

// The four fields of 12 bits from bit `start` on become the numbers of x, and nothing else changes. The eight bytes
// from their first byte on lie in the slice, and only zeros stand from bit `start` on. What stands before that bit in
// its byte is handed over, and what then stands so before the next four is handed back: no byte is read.
pub fn write_four(bytes: &mut [u8], start: usize, front: u64, x: Four) -> u64
    requires start_in_bounds { (start / 8 + 8 ≤ length bytes.old) × (Blank (bits bytes.old) start) }
    requires a_bound { (x.a < 4096) × (x.b < 4096) × (x.c < 4096) × (x.d < 4096) }
    requires front_value { front ≡ the_front_of (bits bytes.old) start }
    ensures { (bits bytes.new ≡ put 48 (four_of x.a x.b x.c x.d) (bits bytes.old) start)
        × (length bytes.new ≡ length bytes.old)
        × (result ≡ the_front_of (bits bytes.new) (start + 48)) }
{
    let off = start % 8;
    let four = join_four(x);
    put_word(bytes, start / 8, (front << 48 | four) << (16 - off));
    four & ((1 << off) - 1)
}
