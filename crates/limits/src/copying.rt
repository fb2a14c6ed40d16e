// 01's fourth empty build, written out: it narrows the first bracket, and every later bracket gets a copy of what became of it. Where each bracket is a hit its counts are right.
// Its contract says no more than that it is safe and ends: the hunt's it cannot meet (`hunt_not_copied` in crates/hunt_distinct/proofs/Copies.antt).
ghost use Rattle.std.specs.Prelude.{◌≤◌};

use curves::Arc;
use hits::{HIT, Tally};
use hunt_bracket::{Cell, Fate, Frame};
use scalar::TAU;

// The counts so far, and the fate of the first bracket, where there was one.
#[derive(Clone, Copy)]
struct Copying {
    tally: Tally,
    first: Option<Fate>,
}

impl Copying {
    // One more bracket: a hit goes to the room.
    fn settle(&mut self, d: Fate, room: &mut [f64]) {
        let t = self.tally;
        self.tally.brackets = t.brackets.wrapping_add(1);
        self.tally.evaluations = t.evaluations.wrapping_add(61);
        if let Fate::Hit(h) = d
            && t.hits < room.len() / HIT
        {
            hits::put(room, t.hits, h);
            self.tally.hits = t.hits + 1;
        }
    }

    // The first bracket is narrowed; of every later one nothing is worked out.
    fn visit(&mut self, f: &Frame, c: Cell, room: &mut [f64]) {
        if hunt::brackets(c) {
            let d = match self.first {
                Some(d) => d,
                None => f.fate(f.narrow(c), &[]),
            };
            self.first = Some(d);
            self.settle(d, room);
        }
    }
}

// The cells of a whole arc at a depth.
pub fn hunt(a: Arc, b: Arc, depth: u32, room: &mut [f64]) -> Tally
    requires { depth ≤ 7 }
{
    let f = &Frame::new(a, b);
    let n = hunt::cell_count(depth);
    let closing = hunt::closing_cell(depth);
    let step = TAU / (n as f64);
    let start = a.start;
    let mut lo = start;
    let mut g_lo = f.value(lo);
    let mut s = Copying {
        tally: Tally {
            evaluations: n.wrapping_add(1),
            ..Tally::default()
        },
        first: None,
    };
    for i in 0..n {
        let next = i + 1;
        let hi = hunt::sample(start, step, next);
        let g_hi = f.value(hi);
        let c = Cell {
            lo,
            hi,
            g_lo,
            g_hi,
            closes: hunt::is_closing(closing, next),
        };
        s.visit(f, c, room);
        lo = hi;
        g_lo = g_hi;
    }
    s.tally
}
