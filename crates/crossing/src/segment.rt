// A segment and an arc: in the frame where the arc's curve is the unit circle a quadratic gives the crossings.
ghost use Rattle.std.specs.Prelude.{◌≡◌};
ghost use Rattle.crossing.specs.SegmentArc.{unit_roots, segment_hit, hits_at, intersect_segment_arc};

use curves::{Arc, Point};
use hits::{CurveHit, UpToTwo};

// The line through a and a + d, with d not nought, against the unit circle: the roots of the quadratic, the smaller first.
#[tactic(auto, unfolding(crate::specs::SegmentArc::unit_roots))]
fn unit_roots(a: Point, d: Point) -> UpToTwo<f64>
    ensures { result ≡ unit_roots a d }
{
    let qa = d.x * d.x + d.y * d.y;
    if qa < 1e-24 {
        return UpToTwo::Zero;
    }
    let qb = 2.0 * (a.x * d.x + a.y * d.y);
    let qc = a.x * a.x + a.y * a.y - 1.0;
    let disc = qb * qb - 4.0 * qa * qc;
    if disc < 0.0 {
        return UpToTwo::Zero;
    }
    let sq = root::sqrt(disc);
    if sq > 1e-12 {
        return UpToTwo::Two((-qb - sq) / (2.0 * qa), (-qb + sq) / (2.0 * qa));
    }
    UpToTwo::One((-qb - sq) / (2.0 * qa))
}

// The hit at the root t, if it lies on the segment and in the arc's span.
// What goes on to each root is handed along bare: the calls are timed.
#[tactic(auto, unfolding(crate::specs::SegmentArc::segment_hit))]
fn segment_hit(p1: Point, p2: Point, arc: Arc, a: Point, d: Point, t: f64) -> Option<CurveHit>
    ensures { result ≡ segment_hit p1 p2 arc a d t }
{
    if !segments::on_segment(t) {
        return None;
    }
    let t = scalar::clamp(t, 0.0, 1.0);
    let theta = arctan::atan2(a.y + t * d.y, a.x + t * d.x);
    let pos = Point {
        x: p1.x + t * (p2.x - p1.x),
        y: p1.y + t * (p2.y - p1.y),
    };
    crate::meet(Some(t), arc::arc_param_in_span(arc, theta), pos)
}

fn hits_at(
    p1: Point,
    p2: Point,
    arc: Arc,
    a: Point,
    d: Point,
    roots: UpToTwo<f64>,
) -> UpToTwo<CurveHit>
    ensures { result ≡ hits_at p1 p2 arc a d roots }
{
    match roots {
        UpToTwo::Zero => UpToTwo::Zero,
        UpToTwo::One(t) => UpToTwo::one(segment_hit(p1, p2, arc, a, d, t)),
        UpToTwo::Two(s, t) => UpToTwo::both(
            segment_hit(p1, p2, arc, a, d, s),
            segment_hit(p1, p2, arc, a, d, t),
        ),
    }
}

#[tactic(auto, unfolding(crate::specs::SegmentArc::intersect_segment_arc))]
pub fn intersect_segment_arc(p1: Point, p2: Point, arc: Arc) -> UpToTwo<CurveHit>
    ensures { result ≡ intersect_segment_arc p1 p2 arc }
{
    let r = arc::arc_radii(arc);
    if r.a < 1e-12 || r.b < 1e-12 {
        return UpToTwo::Zero;
    }
    let rot = sine::sin_cos(arc.rotation);
    let c = arc.center;
    let a = arc::to_unit(p1, c, rot, r);
    let b = arc::to_unit(p2, c, rot, r);
    let d = Point {
        x: b.x - a.x,
        y: b.y - a.y,
    };
    hits_at(p1, p2, arc, a, d, unit_roots(a, d))
}
