// What the library answers, as words.
ghost use Rattle.std.specs.Prelude.{◌≡◌};
ghost use Rattle.replay_rows.specs.Told.{Tells, told};

// What stands in each place that an answer may be written to, as a number and as its bits. No answer has it.
pub const UNWRITTEN: f64 = 1.0e300;

pub const UNWRITTEN_BITS: u64 = 0x7e37e43c8800759c;

#[derive(Clone, Copy, Debug, PartialEq, Eq)]
pub struct Answer {
    pub refusal: u32,
    pub words: [u64; 128],
}

impl Answer {
    // What does not fit is dropped: no row has it.
    pub fn new(refusal: u32, counts: &[u64], numbers: &[f64]) -> Answer
        ensures refusal { result.refusal ≡ refusal }
        ensures words { Tells counts.now numbers.now result.words }
    {
        let len = counts.len().saturating_add(numbers.len()).min(128);
        let mut words = [UNWRITTEN_BITS; 128];
        for i in 0..len {
            words[i] = told(counts, numbers, i);
        }
        Answer { refusal, words }
    }
}

// The word i of an answer of so many counts and numbers.
fn told(counts: &[u64], numbers: &[f64], i: usize) -> u64
    ensures { result ≡ told counts.now numbers.now i }
{
    match i.checked_sub(counts.len()) {
        None => counts[i],
        Some(i) => numbers
            .get(i)
            .map_or(UNWRITTEN_BITS, |x| scalar::to_bits(*x)),
    }
}
