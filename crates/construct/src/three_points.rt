// The arc through three points.
ghost use Rattle.std.specs.Prelude.{◌≡◌};
ghost use Rattle.construct.specs.Circumscribed.{bearing, circumcenter, circumscribed_arc};

use curves::Point;
use shapes::Circumscribed;

// The angle at which p is seen from the center.
fn bearing(center: Point, p: Point) -> f64
    ensures { result ≡ bearing center p }
{
    arctan::atan2(p.y - center.y, p.x - center.x)
}

fn circumcenter(a: Point, b: Point, c: Point, d: f64) -> Point
    ensures { result ≡ circumcenter a b c d }
{
    let aa = a.x * a.x + a.y * a.y;
    let bb = b.x * b.x + b.y * b.y;
    let cc = c.x * c.x + c.y * c.y;
    Point {
        x: (aa * (b.y - c.y) + bb * (c.y - a.y) + cc * (a.y - b.y)) / d,
        y: (aa * (c.x - b.x) + bb * (a.x - c.x) + cc * (b.x - a.x)) / d,
    }
}

pub fn circumscribed_arc(p1: Point, p2: Point, p3: Point) -> Option<Circumscribed>
    ensures { result ≡ circumscribed_arc p1 p2 p3 }
{
    let d = 2.0 * (p1.x * (p2.y - p3.y) + p2.x * (p3.y - p1.y) + p3.x * (p1.y - p2.y));
    if scalar::abs(d) < 1e-12 {
        return None;
    }
    let u = circumcenter(p1, p2, p3, d);
    let sa = bearing(u, p1);
    let ea = bearing(u, p2);
    let ma = bearing(u, p3);
    Some(Circumscribed {
        center: u,
        radius: root::norm(p1.x - u.x, p1.y - u.y),
        start: sa,
        end: ea,
        ccw: arc::norm_tau(ma - sa) < arc::norm_tau(ea - sa),
    })
}
