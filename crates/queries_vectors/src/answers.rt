// How the program prints what the queries answer.
use record::Refusal;
use std::fmt;

// What a question answers: its value, or the refusal's number in brackets.
#[derive(Drop)]
pub struct Told<T>(pub Result<T, Refusal>);

impl<T: fmt::Display> fmt::Display for Told<T> {
    fn fmt<W: fmt::Write>(&self, f: &mut fmt::Formatter<W>) -> fmt::Result {
        match &self.0 {
            Ok(value) => write!(f, "{value}"),
            Err(r) => write!(f, "({})", record::number_of(*r)),
        }
    }
}
