// The arc of the ellipse: its ends, their two angles and its direction.
ghost use Rattle.std.specs.Prelude.{◌≡◌};
ghost use Rattle.conics.specs.Lines.{line_through};
ghost use Rattle.earc_fit.specs.Target.{normal};
ghost use Rattle.earc_fit.specs.Ends.{parametric, agrees, fitted_arc};

use conics::axes::Squares;
use conics::lines::Line;
use curves::{Point, Radii};
use shapes::Fitted;
use sine::SinCos;

// A point and the direction in which the arc runs there.
#[derive(Clone, Copy)]
pub struct End {
    pub p: Point,
    pub t: Point,
}

impl End {
    pub fn tangent(self) -> Line
        ensures { result ≡ line_through self.p self.t }
    {
        Line::through(self.p, self.t)
    }

    pub fn normal(self) -> Point
        ensures { result ≡ normal self.t }
    {
        Point {
            x: -self.t.y,
            y: self.t.x,
        }
    }
}

fn parametric(p: Point, center: Point, r: Radii, rot: SinCos) -> f64
    ensures { result ≡ parametric p center r rot.sin rot.cos }
{
    let lx = (p.x - center.x) * rot.cos + (p.y - center.y) * rot.sin;
    let ly = -(p.x - center.x) * rot.sin + (p.y - center.y) * rot.cos;
    arctan::atan2(ly / r.b, lx / r.a)
}

// Whether the ellipse runs through the angle sa in the direction t1.
fn agrees(t1: Point, r: Radii, rot: f64, sa: f64) -> bool
    ensures { result ≡ agrees t1 r rot sa }
{
    let tv = arc::ellipse_tangent(r.a, r.b, rot, sa);
    tv.x * t1.x + tv.y * t1.y > 0.0
}

pub fn fitted_arc(first: End, p2: Point, center: Point, squares: Squares, rot: f64) -> Fitted
    ensures { result ≡ fitted_arc first.p first.t p2 center squares rot }
{
    let r = Radii {
        a: root::sqrt(squares.rx_sq),
        b: root::sqrt(squares.ry_sq),
    };
    let turn = sine::sin_cos(rot);
    let sa = parametric(first.p, center, r, turn);
    let ea = parametric(p2, center, r, turn);
    Fitted {
        center,
        rx: r.a,
        ry: r.b,
        rotation: rot,
        start: sa,
        end: ea,
        ccw: agrees(first.t, r, rot, sa),
    }
}
