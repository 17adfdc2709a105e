// The place of the k-th one of a string that its bytes hold: by words, then by bytes, then by the table.
ghost use Rattle.std.specs.Prelude.{◌≡◌, ◌+◌, ◌*◌, ◌/◌, ◌<◌, ◌≤◌, length, take, drop};
ghost use Rattle.bits.specs.Bits.{bits, select as select_of};
ghost use Rattle.bits.specs.Spans.{Skipped};
ghost use Rattle.bits.specs.Steps.{within as within_of};

use super::table::in_byte;
use super::words::{byte_rest, word_ones};

// A byte to go on from, and how many ones are left to go.
#[derive(Clone, Copy)]
pub struct Reached {
    pub at: usize,
    pub left: usize,
}

// Passes over whole words from byte `first` on that have fewer ones than are left to go.
pub fn skip_from(bytes: &[u8], first: usize, k: usize) -> Reached
    requires { (first ≤ length bytes.now) × (1 ≤ k) }
    ensures { Skipped (bits bytes.now) (length bytes.now) first k result.at result.left }
{
    let words = (bytes.len() - first) / 8;
    let mut left = k;
    for i in 0..words {
        let at = first + 8 * i;
        let c = word_ones(bytes, at);
        if left <= c {
            return Reached { at, left };
        }
        left -= c;
    }
    Reached {
        at: first + 8 * words,
        left,
    }
}

// Place t of byte `at` as a place of the string, or 0 past the limit.
fn within(limit: usize, at: usize, t: usize) -> usize
    requires { (1 ≤ t) × (t ≤ 8) }
    ensures { result ≡ within_of limit (8 * at + t) }
{
    if limit / 8 < at {
        return 0;
    }
    let before = 8 * at;
    if limit - before < t {
        return 0;
    }
    before + t
}

// The place of the k-th one of the first `limit` bits, or 0.
fn place_of(bytes: &[u8], limit: usize, k: usize) -> usize
    requires { 1 ≤ k }
    ensures { result ≡ select_of (take limit (bits bytes.now)) k }
{
    let reached = skip_from(bytes, 0, k);
    let mut left = reached.left;
    for at in reached.at..bytes.len() {
        let b = bytes[at];
        let c = b.count_ones() as usize;
        if left <= c {
            return within(limit, at, in_byte(b, left));
        }
        left -= c;
    }
    0
}

// The place of the k-th one of the first `limit` bits after the byte of bit `start`, or 0.
fn place_after(bytes: &[u8], start: usize, limit: usize, k: usize) -> usize
    requires { (1 ≤ k) × (1 ≤ limit) × (8 * (start / 8 + 1) + limit ≤ 8 * length bytes.now) }
    ensures { result ≡ select_of (take limit (bits (drop (start / 8 + 1) bytes.now))) k }
{
    let first = start / 8 + 1;
    let last = first + (limit - 1) / 8;
    place_of(&bytes[first..=last], limit, k)
}

// The place of the k-th one of the `places` bits from bit `start` on, or 0: in what is left of the first byte, or after
// it.
pub fn place_from(bytes: &[u8], start: usize, places: usize, k: usize) -> usize
    requires { (1 ≤ k) × (1 ≤ places) × (start + places ≤ 8 * length bytes.now) }
    ensures { result ≡ select_of (take places (drop start (bits bytes.now))) k }
{
    let off = start % 8;
    let room = 8 - off;
    let b = byte_rest(bytes, start);
    let c = b.count_ones() as usize;
    if k <= c {
        return within(places, 0, in_byte(b, k) - off);
    }
    if places <= room {
        return 0;
    }
    let p = place_after(bytes, start, places - room, k - c);
    if p == 0 { 0 } else { room + p }
}
