// The ones of a string that its bytes hold, counted a 64-bit word at a time.
ghost use Rattle.std.specs.Prelude.{◌≡◌, ◌+◌, ◌*◌, ◌/◌, ◌≤◌, length, take, drop};
ghost use Rattle.bits.specs.Bits.{bits, count};

use super::words::{byte_rest, short_ones, word_ones};

// How many of the first n bits are ones: whole words, and then what is left of the last one.
fn ones_before(bytes: &[u8], n: usize) -> usize
    requires { n ≤ 8 * length bytes.now }
    ensures { result ≡ count (take n (bits bytes.now)) }
{
    let words = n / 64;
    let mut sum: usize = 0;
    for i in 0..words {
        sum += word_ones(bytes, 8 * i);
    }
    let rest = n % 64;
    if rest == 0 {
        return sum;
    }
    sum + short_ones(bytes, 8 * words, rest)
}

// How many of the first n bits after the byte of bit `start` are ones.
fn ones_after(bytes: &[u8], start: usize, n: usize) -> usize
    requires { 8 * (start / 8 + 1) + n ≤ 8 * length bytes.now }
    ensures { result ≡ count (take n (bits (drop (start / 8 + 1) bytes.now))) }
{
    ones_before(&bytes[start / 8 + 1..], n)
}

// How many of the n bits from bit `start` on are ones: those up to the end of its byte, and then from whole bytes.
pub fn ones_from(bytes: &[u8], start: usize, n: usize) -> usize
    requires { start + n ≤ 8 * length bytes.now }
    ensures { result ≡ count (take n (drop start (bits bytes.now))) }
{
    if n == 0 {
        return 0;
    }
    let room = 8 - start % 8;
    let b = byte_rest(bytes, start);
    if n <= room {
        return (b >> (room - n)).count_ones() as usize;
    }
    b.count_ones() as usize + ones_after(bytes, start, n - room)
}
