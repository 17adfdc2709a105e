// A record is written from a list of degrees and one list of neighbours, front to back, into zeros.
ghost use Rattle.std.specs.Prelude.{◌≡◌, [], ◌++◌, map, ◌+◌, ◌-◌, ◌*◌, ◌/◌, ◌≤◌, ◌<◌, length, take, get_or};
ghost use Rattle.bits.specs.Bits.{bits as bits_of};
ghost use Rattle.bits.specs.Steps.{front_of, Blank, Begun};
ghost use Rattle.adjacency.specs.Reverse.{total};
ghost use Rattle.record.specs.Record.{record_length, header_bits, field_bits};
ghost use Rattle.record.specs.Filing.{record_from};
ghost use Rattle.record.specs.Steps.{Numbers, unary_bits, Laying};

use super::lists::Listing;
use bits::fields::{Four, set_bit, write};

// The neighbours of a record, numbers from 1, and the bit from which their fields stand.
#[derive(Clone, Copy)]
struct Row<'a> {
    neighbours: &'a [u16],
    start: usize,
    ghost numbers: { Numbers neighbours.now },
    ghost few: { (length neighbours.now ≤ 32768) × (start ≤ 65536) },
}

impl<'a> Row<'a> {
    // Neighbour i, from 0.
    fn number(&self, i: usize) -> usize
        requires { i < length self.now.neighbours.now }
        ensures { (result ≡ get_or self.now.neighbours.now i 0 - 1) × (result < 4096) }
    {
        usize::from(self.neighbours[i]) - 1
    }

    // Four more fields, from field i on, where another one stands behind them: so a whole word does. What stands before
    // them in their first byte is handed over, and what stands so before the next is handed back.
    fn write_four(&self, bytes: &mut [u8], i: usize, front: u64) -> u64
        requires fits { (i + 5 ≤ length self.now.neighbours.now)
            × (self.now.start + 12 * length self.now.neighbours.now ≤ 8 * length bytes.old) }
        requires laying { (Laying self.now.start (bits_of bytes.old)
            (map (λ v. v - 1) self.now.neighbours.now) bytes.old i)
            × (front ≡ front_of (bits_of bytes.old) (self.now.start + 12 * i)) }
        ensures { (Laying self.now.start (bits_of bytes.old)
            (map (λ v. v - 1) self.now.neighbours.now) bytes.new (i + 4))
            × (result ≡ front_of (bits_of bytes.new) (self.now.start + 12 * (i + 4))) }
    {
        let a = self.number(i);
        let b = self.number(i + 1);
        let c = self.number(i + 2);
        let d = self.number(i + 3);
        bits::fields::write_four(bytes, self.start + 12 * i, front, Four { a, b, c, d })
    }

    // The fields of the row: in fours while another one stands behind them, and the last ones by themselves.
    fn write(&self, bytes: &mut [u8])
        requires { (self.now.start + 12 * length self.now.neighbours.now ≤ 8 * length bytes.old)
            × (Blank (bits_of bytes.old) self.now.start) }
        ensures { Begun bytes.new
            (take self.now.start (bits_of bytes.old) ++ field_bits (map (λ v. v - 1) self.now.neighbours.now)) }
    {
        let fours = self.neighbours.len().saturating_sub(1) / 4;
        let mut front = bits::fields::front_of(bytes, self.start);
        for k in 0..fours {
            front = self.write_four(bytes, 4 * k, front);
        }
        for i in 4 * fours..self.neighbours.len() {
            write::<12>(bytes, self.start + 12 * i, self.number(i));
        }
    }
}

// n and m.
fn write_header(bytes: &mut [u8], n: usize, m: usize)
    requires { (4 ≤ length bytes.old) × (n ≤ 4096) × (m ≤ 16384) × (Begun bytes.old []) }
    ensures { Begun bytes.new (header_bits n m) }
{
    write::<13>(bytes, 0, n);
    write::<15>(bytes, 13, m);
}

// D, from bit 28 on: for each degree a one, and then as many zeros, which stand there.
fn write_unary(lists: &Listing, bytes: &mut [u8])
    requires { (28 + (length lists.now.degrees.now + total lists.now.degrees.now) ≤ 8 * length bytes.old)
        × (Blank (bits_of bytes.old) 28) }
    ensures { Begun bytes.new (take 28 (bits_of bytes.old) ++ unary_bits lists.now.degrees.now) }
{
    let mut at = 28;
    for degree in lists.degrees {
        set_bit(bytes, at);
        at += 1 + usize::from(*degree);
    }
}

// The whole record.
pub fn write_record(lists: &Listing, bytes: &mut [u8])
    requires { (Numbers lists.now.neighbours.now)
        × (length bytes.old ≡ record_length (length lists.now.degrees.now) (length lists.now.neighbours.now / 2)) }
    ensures { bytes.new ≡ record_from lists.now.degrees.now lists.now.neighbours.now }
{
    let neighbours = lists.neighbours;
    let n = lists.degrees.len();
    let places = neighbours.len();
    let start = 28 + (n + places);
    bytes.fill(0);
    write_header(bytes, n, places / 2);
    write_unary(lists, bytes);
    Row { neighbours, start }.write(bytes);
}
