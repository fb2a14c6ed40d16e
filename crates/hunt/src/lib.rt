// The sampled hunt (000, `intersect_arcs` where an ellipse takes part): one pass over the cells of a's span.
#![tactic(auto)]

mod cells;
mod counts;
mod settling;

ghost use Rattle.std.specs.Prelude.{◌≡◌, ◌≤◌, ◌<◌, ◌/◌, ◌+◌, ◌^◌, length};
ghost use Rattle.hits.specs.Hit.{hit_size};
ghost use Rattle.hunt.specs.Cells.{cells};
ghost use Rattle.hits.specs.Holds.{Holds, Steps};
ghost use Rattle.hunt.specs.Visits.{Small, visit, scanned};
ghost use Rattle.hunt.specs.Hunt.{early, hunted};

pub use cells::{brackets, cell_count, closing_cell, is_closing, sample};
use curves::Arc;
use hits::Tally;
use hunt_bracket::{Cell, Frame};

// One cell: the tally goes in and comes back, a hit goes to the room.
pub fn visit(f: &Frame, c: Cell, t: Tally, room: &mut [f64]) -> Tally
    requires { Small t × (t.evaluations + 62 < 2 ^ 32) × (t.hits < length room.old / hit_size) }
    ensures { Steps (visit f.now c) t room.old result room.new }
{
    let seen = counts::looked(t, 1);
    if brackets(c) {
        let at = f.narrow(c);
        return settling::settle(f, at, counts::looked(seen, 61), room);
    }
    seen
}

// The first n cells of the samples start + step * i.
fn scan(f: &Frame, start: f64, step: f64, closing: Option<u32>, n: u32, room: &mut [f64]) -> Tally
    requires { (n ≤ 32768) × (n ≤ length room.old / hit_size) }
    ensures { Holds (scanned f.now start step closing n) room.old result room.new }
{
    let mut lo = start;
    let mut g_lo = f.value(start);
    let mut t = counts::looked(Tally::default(), 1);
    for i in 0..n {
        let next = i + 1;
        let hi = sample(start, step, next);
        let g_hi = f.value(hi);
        let c = Cell {
            lo,
            hi,
            g_lo,
            g_hi,
            closes: is_closing(closing, next),
        };
        t = visit(f, c, t, room);
        lo = hi;
        g_lo = g_hi;
    }
    t
}

// Whether nothing is sampled: an ellipse of b that is too small, a span of a that is too short.
#[tactic(auto, unfolding(crate::specs::Hunt::early))]
fn early(f: &Frame, span: f64) -> bool
    ensures { result ≡ early f.now.radii span }
{
    let r = f.radii;
    r.a < 1e-12 || r.b < 1e-12 || scalar::abs(cells::step(span, 256)) < 1e-15
}

// The hunt at a depth, with room for a hit in each cell. The depth's bound is a clause and no type, since docs/HUNT.md names this contract, and callers may keep a plain depth.
pub fn hunt(a: Arc, b: Arc, depth: u32, room: &mut [f64]) -> Tally
    requires { (depth ≤ 7) × (cells depth ≤ length room.old / hit_size) }
    ensures { Holds (hunted a b depth) room.old result room.new }
{
    let f = &Frame::new(a, b);
    let span = cells::span(a);
    if early(f, span) {
        return Tally::default();
    }
    let n = cell_count(depth);
    scan(
        f,
        a.start,
        cells::step(span, n),
        closing_cell(depth),
        n,
        room,
    )
}
