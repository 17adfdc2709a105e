// Bytes joined to numbers, most significant byte first, the bytes of a number stored, and the count of its ones.
ghost use Rattle.std.specs.Prelude.{◌≡◌, [], ◌∷◌, reverse, ◌+◌, ◌*◌, ◌^◌, ◌<◌, ◌≤◌, length, take, drop, get_or};
ghost use Rattle.std.specs.Int.Count.{ones};
ghost use Rattle.bits.specs.Bits.{bits, count, field, put};
ghost use Rattle.bits.specs.Steps.{joined, eight, IsRest};

// The eight bytes from byte `at` on.
fn eight_at(bytes: &[u8], at: usize) -> [u8; 8]
    requires { at + 8 ≤ length bytes.now }
    ensures { result ≡ eight bytes.now at }
{
    [
        bytes[at],
        bytes[at + 1],
        bytes[at + 2],
        bytes[at + 3],
        bytes[at + 4],
        bytes[at + 5],
        bytes[at + 6],
        bytes[at + 7],
    ]
}

// They as one number, the first byte lowest: the machine's own order, so that this is one load.
fn low_word(bytes: &[u8], at: usize) -> u64
    requires { at + 8 ≤ length bytes.now }
    ensures { result ≡ joined 0 (reverse (eight bytes.now at)) }
{
    u64::from_le_bytes(eight_at(bytes, at))
}

// They as one number.
pub fn word(bytes: &[u8], at: usize) -> u64
    requires { at + 8 ≤ length bytes.now }
    ensures { result ≡ joined 0 (eight bytes.now at) }
{
    u64::from_be_bytes(eight_at(bytes, at))
}

// The eight bytes from byte `at` on become those of x.
pub fn put_word(bytes: &mut [u8], at: usize, x: u64)
    requires { at + 8 ≤ length bytes.old }
    ensures { (bits bytes.new ≡ put 64 x (bits bytes.old) (8 * at))
        × (length bytes.new ≡ length bytes.old) }
{
    bytes[at..at + 8].copy_from_slice(&x.to_be_bytes());
}

// Byte `at`, or 0 past the end.
fn byte_or_zero(bytes: &[u8], at: usize) -> u8
    ensures { result ≡ get_or bytes.now at 0 }
{
    bytes.get(at).copied().unwrap_or(0)
}

// The same with zeros after the bytes.
fn padded_word(bytes: &[u8], at: usize) -> u64
    requires { at ≤ length bytes.now }
    ensures { result ≡ joined 0 (eight bytes.now at) }
{
    u64::from_be_bytes([
        byte_or_zero(bytes, at),
        byte_or_zero(bytes, at + 1),
        byte_or_zero(bytes, at + 2),
        byte_or_zero(bytes, at + 3),
        byte_or_zero(bytes, at + 4),
        byte_or_zero(bytes, at + 5),
        byte_or_zero(bytes, at + 6),
        byte_or_zero(bytes, at + 7),
    ])
}

// The same: of a whole word, or of zeros after the bytes where the slice ends before a whole word does.
fn word_or_padded(bytes: &[u8], at: usize) -> u64
    requires { at ≤ length bytes.now }
    ensures { result ≡ joined 0 (eight bytes.now at) }
{
    if at + 8 <= bytes.len() {
        word(bytes, at)
    } else {
        padded_word(bytes, at)
    }
}

// The n bits from byte `at` on, at most 64.
pub fn short_word(bytes: &[u8], at: usize, n: usize) -> u64
    requires { (1 ≤ n) × (n ≤ 64) × (8 * at + n ≤ 8 * length bytes.now) }
    ensures { result ≡ field n (bits bytes.now) (8 * at) }
{
    word_or_padded(bytes, at) >> (64 - n)
}

// The bits from bit `start` on to the end of its byte.
pub fn byte_rest(bytes: &[u8], start: usize) -> u8
    requires { start < 8 * length bytes.now }
    ensures { IsRest bytes.now start result }
{
    bytes[start / 8] & (0xFF >> (start % 8))
}

// The ones of the 64 bits from byte `at` on: the order of bytes is no matter to a count.
pub fn word_ones(bytes: &[u8], at: usize) -> usize
    requires { at + 8 ≤ length bytes.now }
    ensures { (result ≡ count (take 64 (drop (8 * at) (bits bytes.now)))) × (result ≤ 64) }
{
    low_word(bytes, at).count_ones() as usize
}

// The ones of the n bits from byte `at` on, at most 64.
pub fn short_ones(bytes: &[u8], at: usize, n: usize) -> usize
    requires { (1 ≤ n) × (n ≤ 64) × (8 * at + n ≤ 8 * length bytes.now) }
    ensures { (result ≡ count (take n (drop (8 * at) (bits bytes.now)))) × (result ≤ n) }
{
    short_word(bytes, at, n).count_ones() as usize
}
