// What every query tries first: order R and rule 10 for the index, and order Q.
ghost use Rattle.std.specs.Prelude.{◌≡◌};
ghost use Rattle.record.specs.Answers.{tried};
ghost use Rattle.queries.specs.Operations.{beside_rules, order_q as order_q_of};
ghost use Rattle.queries.specs.Seen.{read};

use super::indexed::Indexed;
use forest::lengths::index_length;
use record::Refusal;
use record::header::order_r;
use record::range::out_of_range;

// Order R, and then rule 10 for the index. Inlined, so that a query hands its record and index on once less.
#[inline(always)]
pub fn beside<'a>(bytes: &'a [u8], index: &'a [u8]) -> Result<Indexed<'a>, Refusal>
    ensures { read result ≡ tried (beside_rules bytes.now index.now) (bytes.now, index.now) }
{
    let layout = order_r(bytes)?;
    if index.len() != index_length(layout.n, layout.m) {
        return Err(Refusal::WrongBuffer);
    }
    Ok(Indexed { layout, index })
}

// Order Q. The number k, from 1, is that of a terminal or of a visit: its range is the same.
pub fn order_q<'a>(bytes: &'a [u8], index: &'a [u8], k: usize) -> Result<Indexed<'a>, Refusal>
    ensures { read result ≡ tried (order_q_of bytes.now index.now k) (bytes.now, index.now) }
{
    let i = beside(bytes, index)?;
    if out_of_range(i.layout.n, k) {
        return Err(Refusal::NoTerminal);
    }
    Ok(i)
}
