// Bit strings over bytes, most significant bit first (document 01, "Bits"): rank and select, open to every caller, and
// the bits and fields that the crates above read and write.
#![tactic(auto)]

ghost use Rattle.std.specs.Prelude.{◌≡◌, ◌+◌, ◌*◌, leb};
ghost use Rattle.bits.specs.Bits.{string, rank as rank_of, select as select_of};

mod words; // words.rt: bytes joined to numbers, and the count of ones of a number
mod counts; // counts.rt: the ones of a string that its bytes hold
mod table; // table.rt: the place of the k-th one of a byte
mod search; // search.rt: the place of the k-th one of a string that its bytes hold
mod halving; // halving.rt: the k-th one of a word
mod parts; // parts.rt: the parts of a string, each read as a number
pub mod fields; // fields.rt: bits and fields, read and written
pub mod ones; // ones.rt: the highest one of a number
pub mod spans; // spans.rt: the k-th one of a string, what lies between it and the next, and the only one

// Whether `len` bytes hold `places` bits from bit `start` on.
fn holds(len: usize, start: usize, places: usize) -> bool
    ensures { result ≡ leb (start + places) (8 * len) }
{
    let first = start / 8;
    if len < first {
        return false;
    }
    let need = places / 8 + (places % 8 + start % 8 + 7) / 8;
    need <= len - first
}

// The number of ones in places 1 to p of the string of `places` bits from bit `start` on. A p past the end counts all,
// and a string that the bytes don't hold in full counts as empty.
pub fn rank(bytes: &[u8], start: usize, places: usize, p: usize) -> usize
    ensures { result ≡ rank_of (string bytes.now start places) p }
{
    if holds(bytes.len(), start, places) {
        counts::ones_from(bytes, start, p.min(places))
    } else {
        0
    }
}

// The place of the k-th one of the string of `places` bits from bit `start` on; 0 for k = 0 and where there are fewer
// ones. A string that the bytes don't hold in full counts as empty.
pub fn select(bytes: &[u8], start: usize, places: usize, k: usize) -> usize
    ensures { result ≡ select_of (string bytes.now start places) k }
{
    if k == 0 || places == 0 {
        return 0;
    }
    if holds(bytes.len(), start, places) {
        search::place_from(bytes, start, places, k)
    } else {
        0
    }
}
