// The range of the numbers that count from 1.
ghost use Rattle.std.specs.Prelude.{◌≡◌};
ghost use Rattle.record.specs.Operations.{out_of_range as out_of_range_of};

// Rule 11, and rule 14 of a record that has terminals: k, which a caller passes as a terminal or as a visit number, is
// 0 or above n.
pub fn out_of_range(n: usize, k: usize) -> bool
    ensures { result ≡ out_of_range_of n k }
{
    k == 0 || n < k
}
