// Asks `bits` on fixed bytes and prints the answers, a line for each bit string, field and write. The file stdout has
// what they must be.
#![tactic(auto)]

ghost use Rattle.std.specs.Prelude.{◌<◌, ◌≤◌, length};

use print::show_bytes;
use std::io;

// The sample record.
const SAMPLE: [u8; 21] = [
    0x00, 0x30, 0x00, 0x59, 0x22, 0xA0, 0x02, 0x00, 0x10, 0x00, 0x00, 0x20, 0x01, 0x00, 0x30, 0x00,
    0x00, 0x20, 0x05, 0x00, 0x40,
];

// 48 bytes of every kind: all ones, all zeros, sparse, dense.
const MIXED: [u8; 48] = [
    0xFF, 0xFF, 0xFF, 0xFF, 0xFF, 0xFF, 0xFF, 0xFF, 0x00, 0x00, 0x00, 0x00, 0x00, 0x00, 0x00, 0x00,
    0x80, 0x01, 0x00, 0x00, 0x08, 0x10, 0x7F, 0xFE, 0xA5, 0x5A, 0xC3, 0x3C, 0x12, 0x34, 0x56, 0x78,
    0x9A, 0xBC, 0xDE, 0xF0, 0x00, 0x00, 0x00, 0x00, 0x00, 0x00, 0x00, 0x00, 0x01, 0x00, 0x00, 0x80,
];

// What is asked of each string: places to rank up to, and ones to select.
const ASKED: [usize; 20] = [
    0,
    1,
    2,
    3,
    7,
    8,
    9,
    15,
    16,
    17,
    63,
    64,
    65,
    72,
    100,
    128,
    129,
    200,
    384,
    18446744073709551615,
];

// Rank and select of one string, at each number asked.
fn string(rt: &impl Print, bytes: &[u8], start: usize, places: usize) -> io::Result<()> {
    print!(rt; "string {start} {places}:")?;
    for n in ASKED {
        let rank = bits::rank(bytes, start, places, n);
        let select = bits::select(bytes, start, places, n);
        print!(rt; " {rank}/{select}")?;
    }
    println!(rt;)
}

// The field of WIDTH bits from bit `start` on, where the bytes hold it.
fn field<const WIDTH: usize>(rt: &impl Print, bytes: &[u8], start: usize) -> io::Result<()>
    requires { (length bytes.now ≤ 1000) × (start < 1000) × (9 ≤ WIDTH) × (WIDTH ≤ 16) }
{
    if start + WIDTH <= 8 * bytes.len() {
        print!(rt; " {}", bits::fields::read::<WIDTH>(bytes, start))?;
    }
    Ok(())
}

// The bit `start`, and the fields of 12, 13 and 15 bits from there on, as many of them as the bytes hold.
fn fields(rt: &impl Print, bytes: &[u8], start: usize) -> io::Result<()>
    requires { (length bytes.now ≤ 1000) × (start < 1000) }
{
    print!(rt; "fields {start}:")?;
    if start < 8 * bytes.len() {
        print!(rt; " {}", u8::from(bits::fields::read_bit(bytes, start)))?;
    }
    field::<12>(rt, bytes, start)?;
    field::<13>(rt, bytes, start)?;
    field::<15>(rt, bytes, start)?;
    println!(rt;)
}

// Four bytes of zeros and four of ones, after a field was written from bit `start` on, and then after that bit was set.
fn write(rt: &impl Print, start: usize, v: usize) -> io::Result<()>
    requires { (start ≤ 52) × (v < 4096) }
{
    let mut bytes = [0x00, 0x00, 0x00, 0x00, 0xFF, 0xFF, 0xFF, 0xFF];
    let buffer: &mut [u8] = &mut bytes;
    bits::fields::write::<12>(buffer, start, v);
    print!(rt; "field {start}:")?;
    show_bytes(rt, buffer)?;
    bits::fields::set_bit(buffer, start);
    print!(rt; "bit {start}:")?;
    show_bytes(rt, buffer)
}

// The sample record: its header, D and fields, all its bits, no bits, and strings that it does not hold.
fn sample(rt: &impl Print) -> io::Result<()> {
    let bytes: &[u8] = &SAMPLE;
    fields(rt, bytes, 0)?;
    fields(rt, bytes, 13)?;
    string(rt, bytes, 28, 16)?;
    fields(rt, bytes, 44)?;
    fields(rt, bytes, 56)?;
    fields(rt, bytes, 153)?;
    fields(rt, bytes, 155)?;
    fields(rt, bytes, 156)?;
    fields(rt, bytes, 167)?;
    string(rt, bytes, 0, 168)?;
    string(rt, bytes, 168, 0)?;
    string(rt, bytes, 1, 168)?;
    string(rt, bytes, 169, 0)?;
    string(rt, bytes, 1, 18446744073709551615)?;
    string(rt, bytes, 18446744073709551615, 18446744073709551615)?;
    string(rt, &bytes[..0], 0, 0)
}

// Strings, fields and writes at one of the starting bits of a byte. A field that begins in byte 26 ends in byte 27 or
// in byte 28, so one of the two parts has no byte behind it.
fn at(rt: &impl Print, shift: usize) -> io::Result<()>
    requires { shift ≤ 8 }
{
    let bytes: &[u8] = &MIXED;
    string(rt, bytes, shift, 375)?;
    string(rt, bytes, 190 + shift, 130)?;
    string(rt, bytes, 60 + shift, 5)?;
    fields(rt, bytes, 192 + shift)?;
    fields(rt, bytes, 361 + shift)?;
    fields(rt, &bytes[..28], 208 + shift)?;
    fields(rt, &bytes[..29], 208 + shift)?;
    write(rt, shift, 0xABC)?;
    write(rt, 20 + shift, 0x543)?;
    write(rt, 44 + shift, 0xABC)
}

fn main(rt: HostRuntime) -> io::Result<()> {
    sample(&rt)?;
    for shift in 0..=8 {
        at(&rt, shift)?;
    }
    Ok(())
}
