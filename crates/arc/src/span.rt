// An arc's span and the parameter of a position (000), operation by operation.
ghost use Rattle.std.specs.Prelude.{◌≡◌};
ghost use Rattle.arc.specs.Span.{norm_tau, within, arc_param_in_span};
ghost use Rattle.arc.specs.Frame.{arc_radii, to_unit, arc_theta_of_pos, arc_param_at_point};

use curves::{Arc, Point, Radii};
use scalar::TAU;
use sine::SinCos;

const SPAN_EPS: f64 = 1e-9;

#[tactic(auto, unfolding(crate::specs::Span::norm_tau, sine::specs::Angle::tau))]
pub fn norm_tau(v: f64) -> f64
    ensures { result ≡ norm_tau v }
{
    let r = sine::remainder(v);
    if r < 0.0 { r + TAU } else { r }
}

// An offset from the start is in the span up to the slack past its end.
#[tactic(auto, unfolding(crate::specs::Span::within))]
fn within(off: f64, span: f64, at: f64) -> Option<f64>
    ensures { result ≡ within off span at }
{
    (off <= span + SPAN_EPS).then_some(at)
}

// Where an angle lies in an arc's span.
#[tactic(auto, unfolding(crate::specs::Span::arc_param_in_span))]
pub fn arc_param_in_span(arc: Arc, theta: f64) -> Option<f64>
    ensures { result ≡ arc_param_in_span arc theta }
{
    let sa = arc.start;
    let ea = arc.end;
    if arc.closed {
        return Some(sa + norm_tau(theta - sa));
    }
    if arc.ccw {
        let off = norm_tau(theta - sa);
        return within(off, ea - sa, sa + off);
    }
    let off = norm_tau(sa - theta);
    within(off, sa - ea, sa - off)
}

#[tactic(auto, unfolding(crate::specs::Frame::arc_radii))]
pub fn arc_radii(arc: Arc) -> Radii
    ensures { result ≡ arc_radii arc }
{
    Radii {
        a: arc.radius,
        b: if arc.is_ellipse {
            arc.radius_b
        } else {
            arc.radius
        },
    }
}

// A position in the frame of an ellipse with the center c and the rotation rot, scaled so that the ellipse is the unit circle.
// The radii are those of `arc_radii`, where `turn_point` takes an arc's own, so no one record of a frame serves both.
pub fn to_unit(p: Point, c: Point, rot: SinCos, r: Radii) -> Point
    ensures { result ≡ to_unit p c rot.sin rot.cos r }
{
    let dx = p.x - c.x;
    let dy = p.y - c.y;
    Point {
        x: (rot.cos * dx + rot.sin * dy) / r.a,
        y: (-rot.sin * dx + rot.cos * dy) / r.b,
    }
}

#[tactic(auto, unfolding(crate::specs::Frame::arc_theta_of_pos))]
pub fn arc_theta_of_pos(arc: Arc, p: Point) -> f64
    ensures { result ≡ arc_theta_of_pos arc p }
{
    let rot = sine::sin_cos(arc.rotation);
    let u = to_unit(p, arc.center, rot, arc_radii(arc));
    arctan::atan2(u.y, u.x)
}

// The products in 000's order, where `to_unit` has them the other way: the definition is that, operation by operation.
#[tactic(auto, unfolding(crate::specs::Frame::arc_param_at_point))]
pub fn arc_param_at_point(a: Arc, p: Point) -> f64
    ensures { result ≡ arc_param_at_point a p }
{
    let rot = sine::sin_cos(a.rotation);
    let dx = p.x - a.center.x;
    let dy = p.y - a.center.y;
    let u = dx * rot.cos + dy * rot.sin;
    let v = -dx * rot.sin + dy * rot.cos;
    arctan::atan2(
        v / scalar::max(a.radius_b, 1e-12),
        u / scalar::max(a.radius, 1e-12),
    )
}
