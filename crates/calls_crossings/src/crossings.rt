// Crossings (parts 4 to 6): the hits go to the lent room.
#![tactic(auto, unfolding(checks::specs::Given::tested))]

ghost use Rattle.std.specs.Prelude.{◌≡◌, ◌≤◌, ◌/◌, length};
ghost use Rattle.hits.specs.Hit.{hit_size, hit_part};
ghost use Rattle.hits.specs.Listed.{listed};
ghost use Rattle.hits.specs.Outcome.{closed};
ghost use Rattle.hits.specs.Holds.{Holds};
ghost use Rattle.checks.specs.Refusal.{deepest, refusal_told};
ghost use Rattle.checks.specs.Answer.{found_told, hunted_told};
ghost use Rattle.calls_crossings.specs.Crossed.{Crosses};
ghost use Rattle.calls_crossings.specs.Answers.{segments_answer, segment_arc_answer, arcs_answer};
ghost use Rattle.calls_crossings.specs.Need.{pair_hits};
ghost use Rattle.calls_crossings.specs.Pairs.{pair_outcome};

use checks::{DEEPEST, Faults, Refusal};
use curves::{Arc, Point};
use hits::{CurveHit, Lengths, Tally, UpToTwo};

// How many hits two segments can have, and a closed form.
pub const SEGMENTS_HITS: usize = 1;

pub const CLOSED_HITS: usize = 2;

pub fn segments_refusal(
    a1: Point,
    a2: Point,
    b1: Point,
    b2: Point,
    lent: Lengths,
) -> Result<(), Refusal>
    ensures { refusal_told result ≡ (segments_answer a1 a2 b1 b2).refusal lent }
{
    Faults::none()
        .point(a1)
        .point(a2)
        .point(b1)
        .point(b2)
        .refusal(false, hits::short(SEGMENTS_HITS, lent))
}

pub fn intersect_segments(
    a1: Point,
    a2: Point,
    b1: Point,
    b2: Point,
    room: &mut [f64],
) -> Result<usize, Refusal>
    ensures { Crosses (segments_answer a1 a2 b1 b2) room.old (found_told result) room.new }
{
    segments_refusal(a1, a2, b1, b2, Lengths { room: room.len() })?;
    let c = UpToTwo::one(segments::intersect_segments(a1, a2, b1, b2));
    Ok(hits::write(room, c))
}

pub fn segment_arc_refusal(p1: Point, p2: Point, a: Arc, lent: Lengths) -> Result<(), Refusal>
    ensures { refusal_told result ≡ (segment_arc_answer p1 p2 a).refusal lent }
{
    Faults::none()
        .point(p1)
        .point(p2)
        .arc(a)
        .refusal(false, hits::short(CLOSED_HITS, lent))
}

pub fn intersect_segment_arc(
    p1: Point,
    p2: Point,
    a: Arc,
    room: &mut [f64],
) -> Result<usize, Refusal>
    ensures { Crosses (segment_arc_answer p1 p2 a) room.old (found_told result) room.new }
{
    segment_arc_refusal(p1, p2, a, Lengths { room: room.len() })?;
    Ok(hits::write(room, crossing::intersect_segment_arc(p1, p2, a)))
}

// The closed form's crossings, as a hunt's counts with nothing sampled.
pub fn closed(c: UpToTwo<CurveHit>, room: &mut [f64]) -> Tally
    requires { length (listed c) ≤ length room.old / hit_size }
    ensures { Holds (closed (listed c)) room.old result room.new }
{
    Tally {
        hits: hits::write(room, c),
        ..Tally::default()
    }
}

// How many hits a pair of arcs may need room for; a depth past the deepest is refused before the room.
pub fn pair_hits(a: Arc, b: Arc, depth: u32) -> usize
    ensures { depth ≤ deepest → result ≡ pair_hits a b depth }
{
    if DEEPEST < depth {
        return 0;
    }
    if a.is_ellipse | b.is_ellipse {
        return hunt::cell_count(depth) as usize;
    }
    CLOSED_HITS
}

// Two arcs whose numbers, depth and room are in order. The depth's bound is a clause and no type: the public calls take any depth and refuse a deeper one, and what is below them is called once.
pub fn pair(a: Arc, b: Arc, depth: u32, room: &mut [f64]) -> Tally
    requires { (depth ≤ deepest) × (pair_hits a b depth ≤ length room.old / hit_size) }
    ensures { Holds (pair_outcome a b depth) room.old result room.new }
{
    if a.is_ellipse | b.is_ellipse {
        return hunt::hunt(a, b, depth, room);
    }
    closed(crossing::intersect_circle_circle(a, b), room)
}

pub fn arcs_refusal(a: Arc, b: Arc, depth: u32, lent: Lengths) -> Result<(), Refusal>
    ensures { refusal_told result ≡ (arcs_answer a b depth).refusal lent }
{
    let short = hits::short(pair_hits(a, b, depth), lent);
    Faults::none()
        .arc(a)
        .arc(b)
        .refusal(checks::deep(depth), short)
}

pub fn intersect_arcs(a: Arc, b: Arc, depth: u32, room: &mut [f64]) -> Result<Tally, Refusal>
    ensures { Crosses (arcs_answer a b depth) room.old (hunted_told result) room.new }
{
    arcs_refusal(a, b, depth, Lengths { room: room.len() })?;
    Ok(pair(a, b, depth, room))
}

// The numbers of the hit i of so many, as that part of the room.
pub fn hit<'a>(room: &'a [f64], count: usize, i: usize) -> &'a [f64]
    ensures { result.now ≡ hit_part room.now count i }
{
    hits::hit(room, count, i)
}
