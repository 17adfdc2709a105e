// The header of a record, and order R.
ghost use Rattle.std.specs.Prelude.{◌≡◌, IfOk, not, ◌||◌, eqb};
ghost use Rattle.bits.specs.Bits.{count};
ghost use Rattle.record.specs.Record.{terminals, unary};
ghost use Rattle.record.specs.Rules.{order_r as order_r_of, begins_with_zero, spare_set as spare_set_of, layout_rules};
ghost use Rattle.record.specs.Answers.{tried};
ghost use Rattle.record.specs.Sized.{shape, laid_shape, sizes_of};
ghost use Rattle.record.specs.Steps.{Headed};

use super::Refusal;
use super::layout::{LaidOut, Layout};
use super::lengths::record_length;

// Rule 4: D hasn't exactly n ones, or begins with a zero.
fn bad_unary(bytes: &[u8], n: usize, m: usize) -> bool
    requires { Headed bytes.now n m }
    ensures { result
        ≡ (not (eqb (count (unary bytes.now)) (terminals bytes.now)) || begins_with_zero
        (unary bytes.now)) }
{
    let places = n + 2 * m;
    bits::rank(bytes, 28, places, places) != n || places != 0 && !bits::fields::read_bit(bytes, 28)
}

// Order R, with the record's layout handed on. Inlined: handing a layout on costs a small record's Degree a third more.
#[inline(always)]
pub fn order_r(bytes: &[u8]) -> Result<Layout<'_>, Refusal>
    ensures sizes { shape result ≡ tried (order_r_of bytes.now) (sizes_of bytes.now) }
    ensures same { IfOk result (λ l. l.bytes.now ≡ bytes.now) }
{
    if bytes.len() < 4 {
        return Err(Refusal::TooShort);
    }
    let n = bits::fields::read::<13>(bytes, 0);
    let m = bits::fields::read::<15>(bytes, 13);
    if 4096 < n || 16384 < m {
        return Err(Refusal::OverLimit);
    }
    if bytes.len() != record_length(n, m) {
        return Err(Refusal::WrongLength);
    }
    if bad_unary(bytes, n, m) {
        return Err(Refusal::BadUnary);
    }
    Ok(Layout { bytes, n, m })
}

// Rule 5: a spare bit is set.
fn spare_set(l: &Layout) -> bool
    ensures { result ≡ spare_set_of l.now.bytes.now }
{
    let used = 28 + (l.n + 2 * l.m) + 12 * (2 * l.m);
    let spare = 8 * l.bytes.len() - used;
    bits::rank(l.bytes, used, spare, spare) != 0
}

// Order R and rule 5, with the record's layout handed on.
pub fn laid_out(bytes: &[u8]) -> Result<LaidOut<'_>, Refusal>
    ensures sizes { laid_shape result ≡ tried (layout_rules bytes.now) (sizes_of bytes.now) }
    ensures same { IfOk result (λ l. l.layout.bytes.now ≡ bytes.now) }
{
    let layout = order_r(bytes)?;
    if spare_set(&layout) {
        return Err(Refusal::SpareSet);
    }
    Ok(LaidOut { layout })
}
