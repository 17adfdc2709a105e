// The largest records: shapes of 4,096 terminals, whose bytes are packed by formula. Terminals count from 0 here, as
// they do in the fields.
ghost use Rattle.std.specs.Prelude.{◌+◌, ◌*◌, ◌^◌, ◌≤◌, ◌<◌};

#[derive(Clone, Copy)]
pub enum Shape {
    Path,
    Star,
    Ring,
    Circulant,
    Isolated,
    Pairs,
}

// The wires of a shape.
pub fn wires(s: Shape) -> usize
    ensures { result ≤ 16384 }
{
    match s {
        Shape::Path => 4095,
        Shape::Star => 4095,
        Shape::Ring => 4096,
        Shape::Circulant => 16384,
        Shape::Isolated => 0,
        Shape::Pairs => 2048,
    }
}

fn path_degree(v: usize) -> usize
    ensures { result ≤ 4095 }
{
    match v {
        0 | 4095 => 1,
        _ => 2,
    }
}

fn star_degree(v: usize) -> usize
    ensures { result ≤ 4095 }
{
    if v == 4095 { 4095 } else { 1 }
}

// The neighbours of terminal v.
fn degree(s: Shape, v: usize) -> usize
    ensures { result ≤ 4095 }
{
    match s {
        Shape::Path => path_degree(v),
        Shape::Star => star_degree(v),
        Shape::Ring => 2,
        Shape::Circulant => 8,
        Shape::Isolated => 0,
        Shape::Pairs => 1,
    }
}

// A path in the order of the terminals: the next one, and then the one before.
fn on_path(v: usize, j: usize) -> usize
    requires { v < 4096 }
    ensures { result < 4096 }
{
    if v == 0 {
        return 1;
    }
    if v == 4095 {
        return 4094;
    }
    if j == 0 {
        return v + 1;
    }
    v - 1
}

// A star whose hub is the last terminal, which lists the others from the last down.
fn on_star(v: usize, j: usize) -> usize
    requires { j < 4095 }
    ensures { result < 4096 }
{
    if v == 4095 {
        return 4094 - j;
    }
    4095
}

// A ring in the order of the terminals: the one before, and then the next one.
fn on_ring(v: usize, j: usize) -> usize
    requires { v < 4096 }
    ensures { result < 4096 }
{
    if j == 0 {
        return (v + 4095) % 4096;
    }
    (v + 1) % 4096
}

// The steps to the neighbours of a circulant: 3, -1, 4, -2, -4, 1, -3 and 2.
fn offset(k: usize) -> usize
    ensures { result < 4096 }
{
    match k {
        0 => 3,
        1 => 4095,
        2 => 4,
        3 => 4094,
        4 => 4092,
        5 => 1,
        6 => 4093,
        _ => 2,
    }
}

// Each terminal is joined to the four on either side. It takes every third of the eight steps, and which one is first
// depends on it.
fn on_circulant(v: usize, j: usize) -> usize
    requires { (v < 4096) × (j < 4095) }
    ensures { result < 4096 }
{
    (v + offset((5 * v + 3 * j) % 8)) % 4096
}

// Each terminal is joined to the other one of its pair.
fn on_pair(v: usize) -> usize
    requires { v < 4096 }
    ensures { result < 4096 }
{
    if v % 2 == 0 {
        return v + 1;
    }
    v - 1
}

// Neighbour j of terminal v.
fn neighbour(s: Shape, v: usize, j: usize) -> usize
    requires { (v < 4096) × (j < 4095) }
    ensures { result < 4096 }
{
    match s {
        Shape::Path => on_path(v, j),
        Shape::Star => on_star(v, j),
        Shape::Ring => on_ring(v, j),
        Shape::Circulant => on_circulant(v, j),
        Shape::Isolated => 0,
        Shape::Pairs => on_pair(v),
    }
}

// Bit i becomes a one, where the bytes hold it.
fn put_one(bytes: &mut [u8], i: usize) {
    if i / 8 < bytes.len() {
        bits::fields::set_bit(bytes, i);
    }
}

// The field of WIDTH bits from bit `start` on becomes v, where the bytes hold it.
fn put_field<const WIDTH: usize>(bytes: &mut [u8], start: usize, v: usize)
    requires { (9 ≤ WIDTH) × (WIDTH ≤ 16) × (start < 2 ^ 32) × (v < 2 ^ WIDTH) }
{
    if (start + (WIDTH - 1)) / 8 < bytes.len() {
        bits::fields::write::<WIDTH>(bytes, start, v);
    }
}

// The block of terminal v: its one in D, and its fields, the first of which is field p. Its zeros are there before.
// Returns the next block's first field.
fn put_block(bytes: &mut [u8], s: Shape, v: usize, p: usize) -> usize
    requires { (v < 4096) × (p ≤ 4095 * v) }
    ensures { result ≤ p + 4095 }
{
    let fields = 28 + (4096 + 2 * wires(s)) + 12 * p;
    let d = degree(s, v);
    put_one(bytes, 28 + v + p);
    for j in 0..d {
        put_field::<12>(bytes, fields + 12 * j, neighbour(s, v, j));
    }
    p + d
}

// The record of a shape, over bytes that are zeros.
pub fn pack(bytes: &mut [u8], s: Shape) {
    put_field::<13>(bytes, 0, 4096);
    put_field::<15>(bytes, 13, wires(s));
    let mut p = 0;
    for v in 0..4096 {
        p = put_block(bytes, s, v, p);
    }
}
