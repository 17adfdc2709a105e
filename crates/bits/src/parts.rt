// The parts of a string, each read as a number.
ghost use Rattle.std.specs.Prelude.{◌≡◌, ◌+◌, ◌*◌, ◌%◌, ◌<◌, ◌≤◌, length};
ghost use Rattle.bits.specs.Bits.{bits};
ghost use Rattle.bits.specs.Spans.{ones_between, NextAt, PartOf, WindowOf};

use super::fields::read_long;
use super::ones::top;
use super::search::skip_from;

// A part of a string: so many bits, and their number.
#[derive(Clone, Copy)]
pub struct Part {
    pub width: usize,
    pub bits: u64,
}

// The bits from bit `from` on, so many, their number, and how many ones are left to go in them.
#[derive(Clone, Copy)]
pub struct Window {
    pub from: usize,
    pub width: usize,
    pub bits: u64,
    pub left: usize,
}

// The bits of some bytes before bit `end`.
#[derive(Clone, Copy)]
pub struct Front<'a> {
    pub bytes: &'a [u8],
    pub end: usize,
    pub ghost held: { end ≤ 8 * length bytes.now },
}

impl Front<'_> {
    // The part from bit `at` on, to the end of the 64 bits that begin with its byte, or to the last bit. Each caller
    // has it in its own loop.
    #[inline(always)]
    pub fn part_from(&self, at: usize) -> Part
        requires { at < self.now.end }
        ensures { PartOf (bits self.now.bytes.now) at self.now.end result.width result.bits }
    {
        let width = (64 - at % 8).min(self.end - at);
        Part {
            width,
            bits: read_long(self.bytes, at, width),
        }
    }

    // The part in which the k-th one from bit `start` on stands.
    pub fn window_of(&self, start: usize, k: usize) -> Window
        requires { (1 ≤ k) × (k ≤ ones_between (bits self.now.bytes.now) start self.now.end) × (start ≤ self.now.end)
            × (self.now.end ≤ 1048576) }
        ensures { WindowOf (bits self.now.bytes.now) start self.now.end k
            result.from result.width result.bits result.left }
    {
        let first = self.part_from(start);
        let c = first.bits.count_ones() as usize;
        if k <= c {
            return Window {
                from: start,
                width: first.width,
                bits: first.bits,
                left: k,
            };
        }
        let reached = skip_from(self.bytes, (start + first.width) / 8, k - c);
        let from = 8 * reached.at;
        let part = self.part_from(from);
        Window {
            from,
            width: part.width,
            bits: part.bits,
            left: reached.left,
        }
    }

    // The first one from bit `from` on, which begins a byte, or the end.
    pub fn next_from(&self, from: usize) -> usize
        requires { (from ≤ self.now.end) × (from < self.now.end → from % 8 ≡ 0) }
        ensures { NextAt (bits self.now.bytes.now) from self.now.end result }
    {
        let mut at = from;
        while at < self.end {
            let part = self.part_from(8 * (at / 8));
            if part.bits != 0 {
                return at + part.width - 1 - top(part.bits);
            }
            at += part.width;
        }
        self.end
    }
}
