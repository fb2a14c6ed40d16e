// The circle through two points with a given tangent at the first.
ghost use Rattle.std.specs.Prelude.{◌≡◌};
ghost use Rattle.construct.specs.TangentCircle.{circle_tangent_through};

use curves::Point;
use shapes::Circle;

pub fn circle_tangent_through(s: Point, e: Point, t: Point) -> Option<Circle>
    ensures { result ≡ circle_tangent_through s e t }
{
    let tl = root::norm(t.x, t.y);
    if tl < 1e-12 {
        return None;
    }
    let n = Point {
        x: -t.y / tl,
        y: t.x / tl,
    };
    let dx = e.x - s.x;
    let dy = e.y - s.y;
    let dn = dx * n.x + dy * n.y;
    if scalar::abs(dn) < 1e-12 {
        return None;
    }
    let k = (dx * dx + dy * dy) / (2.0 * dn);
    Some(Circle {
        center: Point {
            x: s.x + k * n.x,
            y: s.y + k * n.y,
        },
        radius: scalar::abs(k),
    })
}
