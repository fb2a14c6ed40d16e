// SVG 2's steps from the ends of an arc to its center, one function a step. Point and Radii are of another crate: a trait for each would be no plainer.
ghost use Rattle.std.specs.Prelude.{◌≡◌};
ghost use Rattle.construct.specs.OutOfRange.{identical, straight, lambda, enlarged};
ghost use Rattle.construct.specs.Svg.{primed, quotient_root, sign, primed_center, turned_back, scaled, angle, swept};

use curves::{Point, Radii};
use scalar::TAU;
use sine::SinCos;

// The ends of the arc.
#[derive(Clone, Copy)]
pub struct Ends {
    pub p1: Point,
    pub p2: Point,
}

impl Ends {
    pub fn identical(self) -> bool
        ensures { result ≡ identical self.p1 self.p2 }
    {
        scalar::abs(self.p1.x - self.p2.x) < 1e-12 && scalar::abs(self.p1.y - self.p2.y) < 1e-12
    }

    // It turns as `arc::to_unit` does, which also divides by the radii: SVG's step has none, and its result corrects them.
    pub fn primed(self, rot: SinCos) -> Point
        ensures { result ≡ primed self.p1 self.p2 rot.sin rot.cos }
    {
        let dx = (self.p1.x - self.p2.x) / 2.0;
        let dy = (self.p1.y - self.p2.y) / 2.0;
        Point {
            x: rot.cos * dx + rot.sin * dy,
            y: -rot.sin * dx + rot.cos * dy,
        }
    }

    pub fn turned_back(self, rot: SinCos, c: Point) -> Point
        ensures { result ≡ turned_back self.p1 self.p2 rot.sin rot.cos c }
    {
        let mx = (self.p1.x + self.p2.x) / 2.0;
        let my = (self.p1.y + self.p2.y) / 2.0;
        Point {
            x: rot.cos * c.x - rot.sin * c.y + mx,
            y: rot.sin * c.x + rot.cos * c.y + my,
        }
    }
}

// Which of the arcs between the ends is meant.
#[derive(Clone, Copy)]
pub struct Flags {
    pub large_arc: bool,
    pub sweep: bool,
}

impl Flags {
    fn sign(self) -> f64
        ensures { result ≡ sign self.large_arc self.sweep }
    {
        if self.large_arc == self.sweep {
            -1.0
        } else {
            1.0
        }
    }

    pub fn swept(self, angle: f64) -> f64
        ensures { result ≡ swept angle self.sweep }
    {
        if !self.sweep && angle > 0.0 {
            angle - TAU
        } else if self.sweep && angle < 0.0 {
            angle + TAU
        } else {
            angle
        }
    }
}

pub fn straight(r: Radii) -> bool
    ensures { result ≡ straight r }
{
    r.a < 1e-12 || r.b < 1e-12
}

pub fn lambda(p: Point, r: Radii) -> f64
    ensures { result ≡ lambda p r }
{
    p.x * p.x / (r.a * r.a) + p.y * p.y / (r.b * r.b)
}

pub fn enlarged(r: Radii, lambda: f64) -> Radii
    ensures { result ≡ enlarged r lambda }
{
    if lambda > 1.0 {
        let s = root::sqrt(lambda);
        Radii {
            a: r.a * s,
            b: r.b * s,
        }
    } else {
        r
    }
}

fn quotient_root(p: Point, r: Radii) -> f64
    ensures { result ≡ quotient_root p r }
{
    let rx2 = r.a * r.a;
    let ry2 = r.b * r.b;
    let x2 = p.x * p.x;
    let y2 = p.y * p.y;
    let den = rx2 * y2 + ry2 * x2;
    if scalar::abs(den) < 1e-30 {
        return 0.0;
    }
    let num = scalar::max(rx2 * ry2 - rx2 * y2 - ry2 * x2, 0.0);
    root::sqrt(num / den)
}

pub fn primed_center(p: Point, r: Radii, flags: Flags) -> Point
    ensures { result ≡ primed_center p r flags.large_arc flags.sweep }
{
    let sq = quotient_root(p, r);
    let s = flags.sign();
    Point {
        x: s * sq * r.a * p.y / r.b,
        y: s * sq * -r.b * p.x / r.a,
    }
}

pub fn scaled(p: Point, c: Point, r: Radii) -> Point
    ensures { result ≡ scaled p c r }
{
    Point {
        x: (p.x - c.x) / r.a,
        y: (p.y - c.y) / r.b,
    }
}

pub fn angle(u: Point, v: Point) -> f64
    ensures { result ≡ angle u v }
{
    let dot = u.x * v.x + u.y * v.y;
    let len = root::norm(u.x, u.y) * root::norm(v.x, v.y);
    let a = arccos::acos(scalar::clamp(dot / len, -1.0, 1.0));
    let cross = u.x * v.y - u.y * v.x;
    if cross < 0.0 { -a } else { a }
}
