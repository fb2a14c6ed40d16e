// Two circles, by the two-circle construction.
ghost use Rattle.std.specs.Prelude.{◌≡◌};
ghost use Rattle.crossing.specs.Circles.{half_chord, candidate, candidates, intersect_circle_circle};

use curves::{Arc, Point};
use hits::{CurveHit, UpToTwo};

// The root of h2, and 0 where rounding took it below 0.
#[tactic(auto, unfolding(crate::specs::Circles::half_chord))]
fn half_chord(h2: f64) -> f64
    ensures { result ≡ half_chord h2 }
{
    if h2 > 0.0 { root::sqrt(h2) } else { 0.0 }
}

#[tactic(auto, unfolding(crate::specs::Circles::candidate))]
fn candidate(a: Arc, b: Arc, pos: Point) -> Option<CurveHit>
    ensures { result ≡ candidate a b pos }
{
    let ta = arctan::atan2(pos.y - a.center.y, pos.x - a.center.x);
    let tb = arctan::atan2(pos.y - b.center.y, pos.x - b.center.x);
    crate::meet(
        arc::arc_param_in_span(a, ta),
        arc::arc_param_in_span(b, tb),
        pos,
    )
}

// The foot of the chord on the line of centers, and the chord's half length h: one point where h is within the tolerance.
#[tactic(auto, unfolding(crate::specs::Circles::candidates))]
fn candidates(
    a: Arc,
    b: Arc,
    foot: Point,
    dx: f64,
    dy: f64,
    d: f64,
    h: f64,
    tol: f64,
) -> UpToTwo<CurveHit>
    ensures { result ≡ candidates a b foot dx dy d h tol }
{
    if h < tol {
        return UpToTwo::one(candidate(a, b, foot));
    }
    let left = Point {
        x: foot.x - h * dy / d,
        y: foot.y + h * dx / d,
    };
    let right = Point {
        x: foot.x + h * dy / d,
        y: foot.y - h * dx / d,
    };
    UpToTwo::both(candidate(a, b, left), candidate(a, b, right))
}

#[tactic(auto, unfolding(crate::specs::Circles::intersect_circle_circle))]
pub fn intersect_circle_circle(a: Arc, b: Arc) -> UpToTwo<CurveHit>
    ensures { result ≡ intersect_circle_circle a b }
{
    let r1 = a.radius;
    let r2 = b.radius;
    let dx = b.center.x - a.center.x;
    let dy = b.center.y - a.center.y;
    let d = root::norm(dx, dy);
    if d < 1e-12 {
        return UpToTwo::Zero;
    }
    let tol = 1e-9 * (r1 + r2 + d);
    if d > r1 + r2 + tol || d < scalar::abs(r1 - r2) - tol {
        return UpToTwo::Zero;
    }
    let along = (r1 * r1 - r2 * r2 + d * d) / (2.0 * d);
    let h = half_chord(r1 * r1 - along * along);
    let foot = Point {
        x: a.center.x + along * dx / d,
        y: a.center.y + along * dy / d,
    };
    candidates(a, b, foot, dx, dy, d, h, tol)
}
