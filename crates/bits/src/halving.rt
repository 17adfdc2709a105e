// The k-th one of a word, by its halves.
ghost use Rattle.std.specs.Prelude.{◌≡◌, ◌+◌, ◌*◌, ◌/◌, ◌^◌, ◌<◌, ◌≤◌};
ghost use Rattle.std.specs.Int.Count.{ones};
ghost use Rattle.bits.specs.Bits.{to_bits, select as select_of};
ghost use Rattle.bits.specs.Spans.{Narrowed};

use super::ones::top;

// What is left to search: the bits that hold the one, how many ones are left to go in them, and how many bits lie
// before them.
#[derive(Clone, Copy)]
struct Half {
    bits: u64,
    left: usize,
    before: usize,
    ghost some: { (1 ≤ left) × (left ≤ ones bits) },
}

// The ones of x: a number of 4 bits for each.
fn ones4(x: u64) -> usize
    requires { x < 16 }
    ensures { (result ≡ ones x) × (result ≤ 4) }
{
    let counts: u64 = 0x4332322132212110;
    ((counts >> (4 * x)) & 15) as usize
}

// The ones of x.
fn ones8(x: u64) -> usize
    requires { x < 256 }
    ensures { result ≡ ones x }
{
    ones4(x >> 4) + ones4(x & 15)
}

// The half of 2·width bits, of which the high half has c ones, in which the one stands. Both halves are at hand and the
// test picks.
fn halve(half: Half, width: usize, c: usize) -> Half
    requires { (width ≤ 32) × (half.before ≤ 64) × (half.bits < 2 ^ (width + width))
        × (c ≡ ones (half.bits / 2 ^ width)) }
    ensures { Narrowed width half.bits half.left half.before result.bits result.left result.before }
{
    if c < half.left {
        return Half {
            bits: half.bits & ((1 << width) - 1),
            left: half.left - c,
            before: half.before + width,
        };
    }
    Half {
        bits: half.bits >> width,
        left: half.left,
        before: half.before,
    }
}

// The place, from 1, of the one in two bits, counted on from `before`.
fn in_pair(half: Half) -> usize
    requires { (half.bits < 4) × (half.before ≤ 62) }
    ensures { (result ≡ half.before + select_of (to_bits 2 half.bits) half.left) × (1 ≤ result)
        × (result ≤ half.before + 2) }
{
    halve(half, 1, (half.bits >> 1) as usize).before + 1
}

// The same of eight bits.
fn in_eight(half: Half) -> usize
    requires { (half.bits < 256) × (half.before ≤ 56) }
    ensures { (result ≡ half.before + select_of (to_bits 8 half.bits) half.left) × (1 ≤ result)
        × (result ≤ half.before + 8) }
{
    let a = halve(half, 4, ones4(half.bits >> 4));
    let b = halve(a, 2, ones4(a.bits >> 2));
    in_pair(b)
}

// The place, from 1, of the k-th one of a word that has k ones.
pub fn in_word(x: u64, k: usize) -> usize
    requires { (1 ≤ k) × (k ≤ ones x) }
    ensures { (result ≡ select_of (to_bits 64 x) k) × (1 ≤ result) × (result ≤ 64) }
{
    let all = Half {
        bits: x,
        left: k,
        before: 0,
    };
    let a = halve(all, 32, (x >> 32).count_ones() as usize);
    let b = halve(a, 16, (a.bits >> 16).count_ones() as usize);
    let c = halve(b, 8, ones8(b.bits >> 8));
    in_eight(c)
}

// The same. A first one is the highest, and needs no halves.
pub fn nth_in_word(x: u64, k: usize) -> usize
    requires { (1 ≤ k) × (k ≤ ones x) }
    ensures { (result ≡ select_of (to_bits 64 x) k) × (1 ≤ result) × (result ≤ 64) }
{
    if k == 1 {
        return 64 - top(x);
    }
    in_word(x, k)
}
