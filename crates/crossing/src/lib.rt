// Crossings in closed form (000): a segment with an arc, and two circles.
#![tactic(auto)]

mod circles;
mod segment;

ghost use Rattle.std.specs.Prelude.{◌≡◌};
ghost use Rattle.crossing.specs.Meet.{meet};

pub use circles::intersect_circle_circle;
use curves::Point;
use hits::CurveHit;
pub use segment::intersect_segment_arc;

// A position that lies in both curves' spans.
pub fn meet(a: Option<f64>, b: Option<f64>, pos: Point) -> Option<CurveHit>
    ensures { result ≡ meet a b pos }
{
    Some(hits::hit_of(a?, b?, pos))
}
