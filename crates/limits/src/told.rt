// What a line says of an answer.
use arcs::{Refusal, Tally};
use std::fmt;

// What was found, or by which number the call refuses.
#[derive(Drop)]
pub struct Told<T>(pub Result<T, Refusal>);

impl<T: fmt::Display> fmt::Display for Told<T> {
    fn fmt<W: fmt::Write>(&self, f: &mut fmt::Formatter<W>) -> fmt::Result {
        match &self.0 {
            Ok(found) => write!(f, "{found}"),
            Err(refusal) => write!(f, "refused with {}", u8::from(*refusal)),
        }
    }
}

#[derive(Drop)]
pub struct Hits(pub usize);

impl fmt::Display for Hits {
    fn fmt<W: fmt::Write>(&self, f: &mut fmt::Formatter<W>) -> fmt::Result {
        write!(f, "hits {}", self.0)
    }
}

#[derive(Drop)]
pub struct Counts(pub Tally);

impl fmt::Display for Counts {
    fn fmt<W: fmt::Write>(&self, f: &mut fmt::Formatter<W>) -> fmt::Result {
        let Tally {
            hits,
            brackets,
            outside_a,
            outside_b,
            doubles,
            evaluations,
        } = self.0;
        write!(f, "hits {hits}, brackets {brackets}, ")?;
        write!(f, "outside a {outside_a}, outside b {outside_b}, ")?;
        write!(f, "doubles {doubles}, evaluations {evaluations}")
    }
}
