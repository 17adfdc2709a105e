// The length of a record.
ghost use Rattle.std.specs.Prelude.{◌≡◌, ◌≤◌};
ghost use Rattle.record.specs.Record.{record_length as record_length_of};

// The bytes that n and m give.
pub fn record_length(n: usize, m: usize) -> usize
    requires { (n ≤ 4096) × (m ≤ 16384) }
    ensures { result ≡ record_length_of n m }
{
    (28 + (n + 2 * m) + 12 * (2 * m)).div_ceil(8)
}
