// Points and tangents of a rotated ellipse (002), operation by operation.
ghost use Rattle.std.specs.Prelude.{◌≡◌};
ghost use Rattle.sine.specs.Rule.{sine, cosine};
ghost use Rattle.arc.specs.Ellipse.{turn_point, ellipse_point, ellipse_tangent};
ghost use Rattle.arc.specs.ArcPoint.{arc_point_at, arc_tangent_at, arc_start_pos, arc_end_pos};

use curves::{Arc, Point};
use sine::SinCos;

// The point at the angle t of an ellipse turned by the angle whose sine and cosine are `rot`: whoever asks for many points works these out once.
// The sine of t does not come back beside its cosine: `sine::cos_beside_sin` says why.
// rx and ry are two arguments and no `Radii`, as the public `ellipse_point` and `ellipse_tangent` have them.
pub fn turn_point(center: Point, rx: f64, ry: f64, rot: SinCos, t: f64) -> Point
    ensures { result ≡ turn_point center rx ry rot.sin rot.cos (sine t) (cosine t) }
{
    let mut lent = [0.0; 3];
    let ct = sine::cos_beside_sin(t, &mut lent);
    let st = lent[2];
    Point {
        x: center.x + rx * ct * rot.cos - ry * st * rot.sin,
        y: center.y + rx * ct * rot.sin + ry * st * rot.cos,
    }
}

#[tactic(auto, unfolding(crate::specs::Ellipse::ellipse_point))]
pub fn ellipse_point(center: Point, rx: f64, ry: f64, rot: f64, t: f64) -> Point
    ensures { result ≡ ellipse_point center rx ry rot t }
{
    turn_point(center, rx, ry, sine::sin_cos(rot), t)
}

#[tactic(auto, unfolding(crate::specs::Ellipse::ellipse_tangent))]
pub fn ellipse_tangent(rx: f64, ry: f64, rot: f64, t: f64) -> Point
    ensures { result ≡ ellipse_tangent rx ry rot t }
{
    let at = sine::sin_cos(t);
    let turn = sine::sin_cos(rot);
    Point {
        x: -rx * at.sin * turn.cos - ry * at.cos * turn.sin,
        y: -rx * at.sin * turn.sin + ry * at.cos * turn.cos,
    }
}

pub fn arc_point_at(a: Arc, t: f64) -> Point
    ensures { result ≡ arc_point_at a t }
{
    ellipse_point(a.center, a.radius, a.radius_b, a.rotation, t)
}

pub fn arc_tangent_at(a: Arc, t: f64) -> Point
    ensures { result ≡ arc_tangent_at a t }
{
    ellipse_tangent(a.radius, a.radius_b, a.rotation, t)
}

pub fn arc_start_pos(a: Arc) -> Point
    ensures { result ≡ arc_start_pos a }
{
    arc_point_at(a, a.start)
}

pub fn arc_end_pos(a: Arc) -> Point
    ensures { result ≡ arc_end_pos a }
{
    arc_point_at(a, a.end)
}
