// Answers as numbers of 32 bits, a refusal in the high half and a value in the low half; and a part as one of 64 bits.
ghost use Rattle.std.specs.Prelude.{◌≡◌, IfOk, ℕ, ◌+◌, ◌*◌, ◌≤◌, ◌<◌};
ghost use Rattle.bits.specs.Bits.{bit};
ghost use Rattle.record.specs.Answers.{number};
ghost use Rattle.queries.specs.Answers.{or_zero, terminal_or_none};
ghost use Rattle.celduga.specs.Code.{coded, in_halves};

use forest::Dfi;
use record::{Part, Refusal, Vertex};

// What an operation answers where it refuses nothing: `low` is its number in the low half.
pub trait Value {
    ghost low: { Self → ℕ };

    fn low(self) -> u32
        requires { low self < 65536 }
        ensures { result ≡ low self };
}

impl Value for () {
    ghost low = { λ _. 0 };

    fn low(self) -> u32 {
        0
    }
}

impl Value for bool {
    ghost low = { bit };

    fn low(self) -> u32 {
        u32::from(self)
    }
}

impl Value for usize {
    ghost low = { λ k. k };

    fn low(self) -> u32 {
        self as u32
    }
}

impl Value for Vertex {
    ghost low = { λ v. v.0 };

    fn low(self) -> u32 {
        self.0.low()
    }
}

impl Value for Dfi {
    ghost low = { λ d. d.0 };

    fn low(self) -> u32 {
        self.0.low()
    }
}

// A parent, 0 for a root.
impl Value for Option<Vertex> {
    ghost low = { λ v. or_zero (terminal_or_none v) };

    fn low(self) -> u32 {
        match self {
            None => 0,
            Some(v) => v.low(),
        }
    }
}

// A refusal's number, in the high half.
fn high(r: Refusal) -> u32
    ensures { result ≡ 65536 * number r }
{
    65536 * record::number_of(r) as u32
}

// An answer as one number.
pub fn code<T: Value>(answer: Result<T, Refusal>) -> u32
    requires { IfOk answer (λ a. T.low a < 65536) }
    ensures { result ≡ coded T.low answer }
{
    match answer {
        Ok(a) => a.low(),
        Err(r) => high(r),
    }
}

// A part of a list: where it begins in the high half of 64 bits, and its size in the low half.
pub fn of_part(p: Part) -> u64
    requires { p.from + p.size ≤ 32768 }
    ensures { result ≡ in_halves p.from p.size }
{
    4294967296 * p.from as u64 + p.size as u64
}
