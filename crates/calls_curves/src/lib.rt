// The call on two curves of either kind: it takes any number, checks its own, and refuses by document 01's number.
#![tactic(auto)]

ghost use Rattle.std.specs.Prelude.{◌≡◌, ◌≤◌, ◌/◌, length};
ghost use Rattle.curves.specs.At.{at};
ghost use Rattle.hits.specs.Hit.{hit_size};
ghost use Rattle.hits.specs.Holds.{Holds};
ghost use Rattle.checks.specs.Refusal.{deepest, refusal_told};
ghost use Rattle.checks.specs.Answer.{hunted_told};
ghost use Rattle.calls_crossings.specs.Crossed.{Crosses};
ghost use Rattle.calls_curves.specs.Curves.{curves_hits, curves_outcome, curves_answer};

use calls_crossings::{CLOSED_HITS, SEGMENTS_HITS};
use checks::{Faults, Refusal};
use curves::{Curve, Point};
use hits::{Lengths, Tally, UpToTwo};

fn at(x: f64, y: f64) -> Point
    ensures { result ≡ at x y }
{
    Point { x, y }
}

// How many hits two curves may need room for; a depth past the deepest is refused before the room.
fn curves_hits(a: Curve, b: Curve, depth: u32) -> usize
    ensures { depth ≤ deepest → result ≡ curves_hits a b depth }
{
    match (a, b) {
        (Curve::Segment(_, _, _, _), Curve::Segment(_, _, _, _)) => SEGMENTS_HITS,
        (Curve::Arc(p), Curve::Arc(q)) => calls_crossings::pair_hits(p, q, depth),
        _ => CLOSED_HITS,
    }
}

// Two curves whose numbers, depth and room are in order.
fn cross(a: Curve, b: Curve, depth: u32, room: &mut [f64]) -> Tally
    requires { (depth ≤ deepest) × (curves_hits a b depth ≤ length room.old / hit_size) }
    ensures { Holds (curves_outcome a b depth) room.old result room.new }
{
    match a {
        Curve::Segment(x1, y1, x2, y2) => match b {
            Curve::Segment(u1, v1, u2, v2) => {
                let c = segments::intersect_segments(
                    at(x1, y1),
                    at(x2, y2),
                    at(u1, v1),
                    at(u2, v2),
                );
                calls_crossings::closed(UpToTwo::one(c), room)
            }
            Curve::Arc(q) => {
                calls_crossings::closed(
                    crossing::intersect_segment_arc(at(x1, y1), at(x2, y2), q),
                    room,
                )
            }
        },
        Curve::Arc(p) => match b {
            Curve::Segment(u1, v1, u2, v2) => {
                let c = crossing::intersect_segment_arc(at(u1, v1), at(u2, v2), p);
                calls_crossings::closed(c.exchanged(), room)
            }
            Curve::Arc(q) => calls_crossings::pair(p, q, depth, room),
        },
    }
}

// The depth is tested for every pair.
pub fn intersect_refusal(a: Curve, b: Curve, depth: u32, lent: Lengths) -> Result<(), Refusal>
    ensures { refusal_told result ≡ (curves_answer a b depth).refusal lent }
{
    let short = hits::short(curves_hits(a, b, depth), lent);
    Faults::none()
        .curve(a)
        .curve(b)
        .refusal(checks::deep(depth), short)
}

// The crossings of two curves.
pub fn intersect(a: Curve, b: Curve, depth: u32, room: &mut [f64]) -> Result<Tally, Refusal>
    ensures { Crosses (curves_answer a b depth) room.old (hunted_told result) room.new }
{
    intersect_refusal(a, b, depth, Lengths { room: room.len() })?;
    Ok(cross(a, b, depth, room))
}
