// A stored answer and what was asked, as the words of a row have them: bench/src/bin/samples.rs.
ghost use Rattle.std.specs.Prelude.{◌≡◌, ◌+◌, ◌≤◌, ◌<◌, ◌↔◌, IfSome, IsTrue, length};

use crate::answer::{Answer, UNWRITTEN_BITS};
use crate::call::Call;
use arrayvec::ArrayVec;

// How many numbers are lent of the first arc or curve, of the second and of `out`, and how many counts.
#[derive(Clone, Copy, Debug, PartialEq, Eq)]
pub struct Lent {
    pub a: usize,
    pub b: usize,
    pub out: usize,
    pub counts: usize,
}

// The numbers of an arc or a curve, as many as are lent, and its marks.
#[derive(Drop)]
pub struct LentArc {
    pub numbers: ArrayVec<f64, 12>,
    pub marks: u32,
}

// The inputs stand behind six words, then the refusal, how many outputs there are, and these. What stands behind them counts for nothing.
#[derive(Clone, Copy)]
pub struct Sample<'a> {
    pub call: Call,
    pub lent: Lent,
    pub words: &'a [u64],
    pub inputs: usize,
    pub outputs: usize,
    ghost whole: { inputs + 8 + outputs ≤ length words.now },
}

impl<'a> Sample<'a> {
    ghost use Rattle.replay_rows.specs.Agree.{Agrees, stored};
    ghost use Rattle.replay_rows.specs.Read.{IsRead};

    // Nothing where there is no such call, or not as many inputs and outputs as the words say.
    pub fn read(words: &'a [u64]) -> Option<Sample<'a>>
        ensures { IfSome result (λ sample. IsRead words.now sample) }
    {
        let [number, a, b, out, counts, given, ..] = words else {
            return None;
        };
        let call = Call::try_from(*number).ok()?;
        let inputs = call.arity();
        let outputs = words.len().checked_sub(inputs + 8)?;
        if *given != inputs as u64 || words[inputs + 7] != outputs as u64 {
            return None;
        }
        Some(Sample {
            call,
            lent: Lent {
                a: *a as usize,
                b: *b as usize,
                out: *out as usize,
                counts: *counts as usize,
            },
            words,
            inputs,
            outputs,
        })
    }

    // 0 past the last word, where no call looks.
    fn input(&self, i: usize) -> u64 {
        self.words[6..].get(i).copied().unwrap_or(0)
    }

    pub fn number(&self, i: usize) -> f64 {
        scalar::from_bits(self.input(i))
    }

    // The inputs from one on as numbers. Where one is a whole number, what its bits would be as a number is not used.
    pub fn numbers<const N: usize>(&self, from: usize) -> [f64; N] {
        let mut numbers = [0.0; N];
        for (x, word) in numbers.iter_mut().zip(self.words[6..].iter().skip(from)) {
            *x = scalar::from_bits(*word);
        }
        numbers
    }

    // A mark, a flag or the depth. None that is stored is above 32 bits.
    pub fn whole(&self, i: usize) -> u32 {
        u32::try_from(self.input(i)).unwrap_or(u32::MAX)
    }

    // A length, a count or an index.
    pub fn size(&self, i: usize) -> usize {
        self.input(i) as usize
    }

    // The arc or curve whose inputs begin at one, with so many of its numbers.
    pub fn arc(&self, from: usize, lent: usize) -> LentArc
        requires { from < 18 }
    {
        let mut numbers = ArrayVec::from(self.numbers(from));
        numbers.truncate(lent);
        LentArc {
            numbers,
            marks: self.whole(from + 7),
        }
    }

    // The last input: of a call with a room, how long that is.
    pub fn room(&self) -> usize {
        self.words[self.inputs + 5] as usize
    }

    // The word i of an answer, as the outputs have it.
    fn stored(&self, i: usize) -> u64
        ensures { result ≡ stored self.now.words.now (self.now.inputs + 8) self.now.outputs i }
    {
        if i < self.outputs {
            self.words[self.inputs + 8 + i]
        } else {
            UNWRITTEN_BITS
        }
    }

    pub fn agrees(&self, answer: &Answer) -> bool
        ensures { IsTrue result ↔ Agrees self.now.words.now self.now.inputs self.now.outputs answer.now.refusal answer.now.words }
    {
        u64::from(answer.refusal) == self.words[self.inputs + 6]
            && answer
                .words
                .iter()
                .enumerate()
                .all(|(i, word)| *word == self.stored(i))
    }
}
