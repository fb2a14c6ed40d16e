// The input of arcdesk, in pieces of any size: lines are found in it and answered, a step at a time. It reads and writes nothing itself.
#![tactic(auto)]

ghost use Rattle.std.specs.Prelude.{◌≡◌, ◌≤◌, [], length, replicate};
ghost use Rattle.laws.specs.Literal.{zero};
ghost use Rattle.desk_lines.specs.Hand.{most};
ghost use Rattle.desk_line.specs.Read.{read_line};
ghost use Rattle.desk.specs.Reply.{shown, table_after};
ghost use Rattle.desk.specs.Answer.{room_need};
ghost use Rattle.desk_output.specs.Reading.{start};

use arrayvec::ArrayVec;
use desk::{OUT_NEED, ROOM_NEED, Table};
use desk_lines::KeptLine;
use std::marker::Model;

// What a step is lent: a room for the hits of a query, and a list for the bytes to print. Apart from `Stream`, since nothing of it is known over a step.
#[derive(Drop)]
pub struct Buffers {
    pub room: [f64; ROOM_NEED],
    pub out: ArrayVec<u8, OUT_NEED>,
}

impl Buffers {
    pub fn new() -> Self
        ensures room { result.room ≡ replicate room_need zero }
        ensures out { result.out.items ≡ [] }
    {
        Buffers {
            room: [0.0; ROOM_NEED],
            out: ArrayVec::new(),
        }
    }
}

// The table, the number of the line at hand, and what is kept of it.
#[derive(Clone, Copy)]
pub struct Stream {
    pub table: Table,
    pub number: u64,
    pub line: KeptLine,
}

impl Model for Stream {
    ghost use Rattle.desk_output.specs.Reading.{Reading};

    ghost Value = { Reading };

    ghost view = { λ s. record { table = s.table; number = s.number; line = s.line } };

    ghost inverse = { λ q. record { table = q.table; number = q.number; line = q.line } };
}

impl Stream {
    ghost use Rattle.desk_stream.specs.Step.{stepped, finishing, finished};

    pub fn begin() -> Self
        ensures { result ≡ start }
    {
        Stream {
            table: Table::new(),
            number: 1,
            line: KeptLine::new(),
        }
    }

    // The line at hand is whole.
    #[tactic(auto, unfolding(desk::specs::Answer::answer))]
    fn answer(&mut self, lent: &mut Buffers)
        requires { lent.old.out.items ≡ [] }
        ensures stream { self.new ≡ record { table = table_after self.old.table (read_line self.old.line); number = self.old.number; line = self.old.line } }
        ensures lent { record { room = lent.new.room; out = lent.new.out.items } ≡ finishing (shown self.old.table self.old.number (read_line self.old.line)) lent.old.room }
    {
        let says = desk_line::read(self.line.as_slice());
        self.table
            .answer(self.number, says, &mut lent.room, &mut lent.out)
            .unwrap();
    }

    // A step takes the bytes of the piece up to and with a newline, or all, and gives back those that are left. The bytes to print stand in `lent.out`.
    #[tactic(auto, unfolding(crate::specs::Step::stepped, desk_output::specs::Reading::following))]
    pub fn step<'a>(&mut self, piece: &'a [u8], lent: &mut Buffers) -> &'a [u8]
        ensures step { record { reading = self.new; rest = result.now; room = lent.new.room; out = lent.new.out.items } ≡ stepped self.old piece.now lent.old.room }
        ensures few { length self.old.line ≤ most }
    {
        lent.out.clear();
        match desk_lines::take_line(&mut self.line, piece) {
            Some(read) => {
                self.answer(lent);
                self.number = self.number.saturating_add(1);
                self.line.clear();
                &piece[read..]
            }
            None => &[],
        }
    }

    // The input has ended. A last line without its newline counts.
    #[tactic(auto, unfolding(crate::specs::Step::finished))]
    pub fn finish(mut self, lent: &mut Buffers)
        ensures { record { room = lent.new.room; out = lent.new.out.items } ≡ finished self lent.old.room }
    {
        lent.out.clear();
        if desk_lines::begun(&self.line) {
            self.answer(lent);
        }
    }
}
