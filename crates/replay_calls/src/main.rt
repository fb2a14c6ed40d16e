// Every public call held against stored answers of the original. A row of standard input is a call, its inputs and its answer,
// in the form that bench/src/bin/samples.rs says, which wrote them: `bench/run samples 1 > crates/replay_calls/stdin`. The program
// asks the library the same. A row is the same where the refusal is, and each word of the answer, and where what was lent past it
// stands as it was, as far as 128 words reach; a number's word is its bits, with one NaN. It prints for each call how many rows it had and how many of
// them the library answers otherwise; at last the sum, and how many rows could not be read.
#![tactic(auto)]

mod asked;
mod by_arc;
mod by_numbers;
mod crossings;

use replay_rows::rows;
use replay_rows::rows::{Line, Words};
use replay_rows::sample::Sample;
use replay_rows::tally::{Row, Tally};
use std::io;
use std::io::{Read, Stdin};

fn held(sample: &Sample) -> Row {
    if sample.agrees(&asked::answer(sample)) {
        Row::Same(sample.call)
    } else {
        Row::Differs(sample.call)
    }
}

// The line at hand, as far as it has come, where its words go, and the rows so far.
#[derive(Drop)]
struct Replay {
    line: Line,
    words: Words,
    tally: Tally,
}

impl Replay {
    // Nothing where the line is no row.
    fn read(&mut self) -> Option<Row> {
        rows::read_words(self.line.as_slice(), &mut self.words)?;
        let sample = Sample::read(self.words.as_slice())?;
        Some(held(&sample))
    }

    fn end_line(&mut self) {
        let row = self.read();
        self.tally.add(row);
        self.line.clear();
    }

    // Part of a line. What does not fit is dropped: a line that is full is no row.
    fn keep(&mut self, part: &[u8]) {
        let fits = part.len().min(self.line.remaining_capacity());
        let _ = self.line.try_extend_from_slice(&part[..fits]);
    }

    // What a piece has of a line, with its newline where that has come. Not byte by byte, which takes longer.
    fn take(&mut self, part: &[u8]) {
        match part.split_last() {
            Some((b'\n', line)) => {
                self.keep(line);
                self.end_line();
            }
            _ => self.keep(part),
        }
    }

    // A proved loop has to end, and nothing says that the input does. So the turns are counted, up to a number that no run reaches.
    fn take_all(&mut self, input: &mut Stdin) -> io::Result<()> {
        let mut buffer = [0u8; 65536];
        for _ in 0..u64::MAX {
            let n = input.read(&mut buffer)?;
            if n == 0 {
                break;
            }
            for part in buffer[..n].split_inclusive(|b| *b == b'\n') {
                self.take(part);
            }
        }
        Ok(())
    }

    // A row without its newline may be cut, and is not read.
    fn end(&mut self) {
        if !self.line.is_empty() {
            self.tally.add(None);
        }
    }
}

fn main(rt: HostRuntime) -> io::Result<()> {
    let mut input = rt.stdin();
    let mut replay = Replay {
        line: Line::new(),
        words: Words::new(),
        tally: Tally::default(),
    };
    replay.take_all(&mut input)?;
    replay.end();
    replay.tally.print(rt.stdout())
}
