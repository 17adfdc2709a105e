// The ones of a number, the highest first.
ghost use Rattle.std.specs.Prelude.{◌≡◌, ◌+◌, ◌-◌, ◌^◌, ◌≤◌, ◌<◌};

// The place of the highest one of x, from 0 for the lowest bit.
pub fn top(x: u64) -> usize
    requires { 1 ≤ x }
    ensures { (result < 64) × (2 ^ result ≤ x) × (x < 2 ^ (result + 1)) }
{
    63 - u64::leading_zeros(x) as usize
}

// x without its highest one, at place h. The bit is turned, which takes the machine one step.
pub fn without(x: u64, h: usize) -> u64
    requires { (h < 64) × (2 ^ h ≤ x) × (x < 2 ^ (h + 1)) }
    ensures { result ≡ x - 2 ^ h }
{
    x ^ (1 << h)
}
