// The k-th one of a string that its bytes hold, by words, what lies between it and the next, and the only one of a
// string.
ghost use Rattle.std.specs.Prelude.{◌≡◌, ◌+◌, ◌*◌, ◌≤◌, length, take, drop};
ghost use Rattle.bits.specs.Bits.{bits, count, select as select_of};
ghost use Rattle.bits.specs.Spans.{SpanOf, LoneOf};

use super::counts::ones_from;
use super::halving::{in_word, nth_in_word};
use super::ones::{top, without};
use super::parts::Front;

// The places of a string between a one and the next, counted from 0: the first, and the one behind the last.
#[derive(Clone, Copy)]
pub struct Span {
    pub from: usize,
    pub to: usize,
}

// What lies between the k-th one, which there is, and the next, or the end, of the string of `places` bits from bit
// `start` on.
pub fn span_from(bytes: &[u8], start: usize, places: usize, k: usize) -> Span
    requires { (1 ≤ k) × (k ≤ count (take places (drop start (bits bytes.now))))
        × (start + places ≤ 8 * length bytes.now) × (start + places ≤ 1048576) }
    ensures { SpanOf (take places (drop start (bits bytes.now))) k result.from result.to }
{
    let front = Front {
        bytes,
        end: start + places,
    };
    let w = front.window_of(start, k);
    let left = 64 - in_word(w.bits, w.left);
    let rest = w.bits & ((1 << left) - 1);
    let end = w.from + w.width;
    let from = end - left - start;
    if rest != 0 {
        return Span {
            from,
            to: end - 1 - top(rest) - start,
        };
    }
    Span {
        from,
        to: front.next_from(end) - start,
    }
}

// The place of the k-th one of the string of `places` bits from bit `start` on, from 1; 0 where there are fewer.
pub fn nth_from(bytes: &[u8], start: usize, places: usize, k: usize) -> usize
    requires { (1 ≤ k) × (start + places ≤ 8 * length bytes.now) × (start + places ≤ 1048576) }
    ensures { result ≡ select_of (take places (drop start (bits bytes.now))) k }
{
    let end = start + places;
    let front = Front { bytes, end };
    let mut at = start;
    let mut left = k;
    while at < end {
        let part = front.part_from(at);
        let c = part.bits.count_ones() as usize;
        if left <= c {
            return at + part.width + nth_in_word(part.bits, left) - 64 - start;
        }
        left -= c;
        at += part.width;
    }
    0
}

// The only one of a string.
#[derive(Clone, Copy)]
pub enum Lone {
    None,
    At(usize),
    More,
}

// The only one of the string of `places` bits from bit `start` on, by one pass over the words.
pub fn lone_from(bytes: &[u8], start: usize, places: usize) -> Lone
    requires { (start + places ≤ 8 * length bytes.now) × (start + places ≤ 1048576) }
    ensures { LoneOf (take places (drop start (bits bytes.now))) result }
{
    let end = start + places;
    let front = Front { bytes, end };
    let mut at = start;
    while at < end {
        let part = front.part_from(at);
        let next = at + part.width;
        if part.bits != 0 {
            let h = top(part.bits);
            if without(part.bits, h) != 0 {
                return Lone::More;
            }
            if ones_from(bytes, next, end - next) != 0 {
                return Lone::More;
            }
            return Lone::At(next - 1 - h - start);
        }
        at = next;
    }
    Lone::None
}
