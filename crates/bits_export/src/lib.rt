// The reader of 12-bit fields as a function for C, so that tests can look at its instructions and call it, and the
// benchmark can time it. It is in no archive for users: it has a precondition, which nothing tests at run time.
#![tactic(auto)]

ghost use Rattle.std.specs.Prelude.{◌≡◌, ◌+◌, ◌*◌, ◌≤◌, length};
ghost use Rattle.bits.specs.Bits.{bits as bits_of, field};

#[unsafe(no_mangle)]
pub extern "C" fn bits_read12(bytes: &[u8], start: usize) -> usize
    requires { start + 12 ≤ 8 * length bytes.now }
    ensures { result ≡ field 12 (bits_of bytes.now) start }
{
    bits::fields::read::<12>(bytes, start)
}
