// What programs print: answers, lists, bytes and digests. It rests on none of the crates that they ask.
#![tactic(auto)]

ghost use Rattle.std.specs.Prelude.{◌≡◌, codes};
ghost use Rattle.print.specs.Told.{told, worded};

use std::{fmt, io};

// What a call answers: its value, or the number of its refusal.
#[derive(Drop)]
pub struct Told<T>(pub Result<T, usize>);

impl<T: fmt::Display> fmt::Display for Told<T> {
    ghost output = { λ t. told T.output t.0 };

    fn fmt<W: fmt::Write>(&self, f: &mut fmt::Formatter<W>) -> fmt::Result {
        match &self.0 {
            Ok(value) => write!(f, "{value}"),
            Err(k) => write!(f, "refused {k}"),
        }
    }
}

// The same of a call that answers no more than that nothing is refused.
pub fn verdict(answer: Result<(), usize>) -> Told<&'static str>
    ensures { worded (λ s. s.now) result.0 ≡ worded (λ _. codes "accepted") answer }
{
    Told(answer.map(|()| "accepted"))
}

// The numbers of a list, to the end of the line.
pub fn show_numbers(rt: &impl Print, list: &[u16]) -> io::Result<()> {
    for n in list {
        print!(rt; " {n}")?;
    }
    println!(rt;)
}

// The bytes in hexadecimal, to the end of the line.
pub fn show_bytes(rt: &impl Print, bytes: &[u8]) -> io::Result<()> {
    for b in bytes {
        print!(rt; " {b:02x}")?;
    }
    println!(rt;)
}

// The digest of the bytes, to the end of the line.
pub fn digest(rt: &impl Print, bytes: &[u8]) -> io::Result<()> {
    let d = bytes.iter().fold(
        0u32,
        |d, b| d.wrapping_mul(65599).wrapping_add(u32::from(*b)),
    );
    println!(rt; " {d:08x}")
}
