// One line of arcdesk: it changes the table, and the bytes to print go to the end of a list.
#![tactic(auto)]

ghost use Rattle.std.specs.Prelude.{◌≡◌, ◌+◌, ◌-◌, ◌≤◌, length, take, cond, Some, None, OnOk, OnErr};
ghost use Rattle.arrayvec.specs.ArrayVec.{array_vec_len};
ghost use Rattle.checks.specs.Refusal.{refusal_told};

mod crossings;

use arrayvec::ArrayVec;
use checks::{Faults, Refusal};
use curves::Curve;
use desk_line::Line;
use hits::HIT;
use std::marker::Model;

// How many records there can be.
pub const MOST: usize = 64;

// What every query fits: the numbers of its hits, of which each cell has at most one, and the bytes of its lines.
pub const ROOM_NEED: usize = HIT * 2048;

pub const OUT_NEED: usize = 262144;

// What stands in a place that no record has taken.
const BLANK: Curve = Curve::Segment(0.0, 0.0, 0.0, 0.0);

// The records taken so far, in order. Places and a count and no `ArrayVec`, which is not `Copy`.
#[derive(Clone, Copy)]
pub struct Table {
    places: [Curve; MOST],
    count: usize,
}

impl Model for Table {
    ghost use Rattle.std.specs.Prelude.{List, length, take};
    ghost use Rattle.curves.specs.declared.Curve.{Curve};

    ghost Value = { List Curve };

    ghost use Rattle.desk.specs.Places.{laid, IsLaid};

    ghost view = { λ t. take t.count t.places };

    ghost invariant = { λ t. IsLaid t.places t.count };

    // The blanks behind the records are there for it: by them the list gives the places back, so that a copy is the same.
    ghost inverse = { λ records. record { places = laid records; count = length records } };

    ghost inverse_ok = { λ t l i. record { places = l.back i; count = l.counted i } };
}

// The room, or what is left of the list, is too short for some line.
#[derive(Clone, Copy, Debug, PartialEq, Eq)]
pub struct Short;

impl Table {
    ghost use Rattle.desk.specs.Table.{empty, held, record_at, stored};
    ghost use Rattle.desk.specs.Refused.{record_refusal, refusal};
    ghost use Rattle.desk.specs.Reply.{taken, grown};
    ghost use Rattle.desk.specs.Answer.{room_need, out_need, answer, Shows};

    pub fn new() -> Self
        ensures { result ≡ empty }
    {
        Table {
            places: [BLANK; MOST],
            count: 0,
        }
    }

    // The first of 64 places, as many as a count says that are taken, or all.
    pub fn of(places: &[Curve; MOST], count: usize) -> Self
        ensures { result ≡ take count places.now }
    {
        let count = count.min(MOST);
        let mut own = *places;
        own[count..].fill(BLANK);
        Table { places: own, count }
    }

    pub fn count(&self) -> usize
        ensures { result ≡ length self.now }
    {
        self.records().len()
    }

    pub fn records(&self) -> &[Curve]
        ensures { result.now ≡ self.now }
    {
        &self.places[..self.count]
    }

    // The records are numbered from 1.
    #[tactic(auto, unfolding(crate::specs::Table::held))]
    fn get(&self, number: usize) -> Option<Curve>
        ensures { result ≡ cond (held self.now number) (Some (record_at self.now number)) None }
    {
        self.records().get(number.checked_sub(1)?).copied()
    }

    #[tactic(auto, unfolding(crate::specs::Refused::record_refusal))]
    fn keep(&mut self, c: Curve) -> Result<(), Refusal>
        ensures refused { refusal_told result ≡ record_refusal self.old c }
        ensures ok { OnOk result (self.new ≡ stored self.old c) }
        ensures err { OnErr result (self.new ≡ self.old) }
    {
        if self.count == MOST {
            return Err(Refusal::TableFull);
        }
        Faults::none().curve(c).passed()?;
        self.places[self.count] = c;
        self.count += 1;
        Ok(())
    }

    // What a line does that is not refused.
    #[tactic(auto, using(crate::proofs::Outcomes::unchanged), unfolding(crate::specs::Refused::query_refusal))]
    fn take<const N: usize>(
        &mut self,
        number: u64,
        line: Option<Line>,
        room: &mut [f64],
        out: &mut ArrayVec<u8, N>,
    ) -> Result<(), Refusal>
        requires room { room_need ≤ length room.old }
        requires out { array_vec_len out.old + out_need ≤ N }
        ensures refused { refusal_told result ≡ refusal self.old line }
        ensures ok { OnOk result ((self.new ≡ grown self.old line) × Shows (taken self.old number line) room.old out.old.items room.new out.new.items) }
        ensures err { OnErr result ((self.new ≡ self.old) × (room.new ≡ room.old) × (out.new ≡ out.old)) }
    {
        match line.ok_or(Refusal::MalformedLine)? {
            Line::Record(c) => self.keep(c),
            Line::Query {
                first,
                second,
                depth,
            } => {
                let a = self.get(first).ok_or(Refusal::NoSuchRecord)?;
                let b = self.get(second).ok_or(Refusal::NoSuchRecord)?;
                crossings::cross(a, b, depth, number, room, out)
            }
        }
    }

    // The number of a line and what it says; none is a malformed one. A query's hits go to the room. The room and the list are two parameters and no struct:
    // any room and any capacity are taken, and `desk_stream` has the struct of those that are long enough.
    #[tactic(auto, using(crate::proofs::Outcomes::unchanged), unfolding(crate::specs::Answer::answer, crate::specs::Reply::shown, crate::specs::Reply::table_after))]
    pub fn answer<const N: usize>(
        &mut self,
        number: u64,
        line: Option<Line>,
        room: &mut [f64],
        out: &mut ArrayVec<u8, N>,
    ) -> Result<(), Short>
        ensures { record { result = result; table = self.new; room = room.new; out = out.new.items }
            ≡ answer self.old number line room.old (N - array_vec_len out.old) out.old.items }
    {
        if room.len() < ROOM_NEED || out.remaining_capacity() < OUT_NEED {
            return Err(Short);
        }
        if let Err(refusal) = self.take(number, line, room, out) {
            desk_print::refused_line(out, number, refusal.into());
        }
        Ok(())
    }
}
