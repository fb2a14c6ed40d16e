// The point that the bulge asks for.
ghost use Rattle.std.specs.Prelude.{◌≡◌};
ghost use Rattle.earc_fit.specs.Target.{chord_between, bulge_sign_of, target_mid_of};

use crate::ends::End;
use conics::lines::Line;
use curves::Point;

// From the point p1 to the point p2: the way, and how long it is.
#[derive(Clone, Copy)]
pub struct Chord {
    pub p1: Point,
    pub p2: Point,
    pub way: Point,
    pub len: f64,
}

impl Chord {
    // None for points that are alike.
    pub fn between(p1: Point, p2: Point) -> Option<Self>
        ensures { result ≡ chord_between p1 p2 }
    {
        let way = Point {
            x: p2.x - p1.x,
            y: p2.y - p1.y,
        };
        let len = root::norm(way.x, way.y);
        if len < 1e-12 {
            return None;
        }
        Some(Chord { p1, p2, way, len })
    }

    pub fn target_mid(self, bulge_sign: f64, bulge: f64) -> Point
        ensures { result ≡ target_mid_of self.p1 self.p2 self.way self.len bulge_sign bulge }
    {
        let half_chord = self.len / 2.0;
        let perp_x = -(self.way.y / self.len);
        let perp_y = self.way.x / self.len;
        Point {
            x: (self.p1.x + self.p2.x) / 2.0 + perp_x * bulge_sign * bulge * half_chord,
            y: (self.p1.y + self.p2.y) / 2.0 + perp_y * bulge_sign * bulge * half_chord,
        }
    }
}

// The center is guessed where the normals at the two ends meet; where they are parallel both sides give the same conic. 001 means
// the arc to bulge away from the center, but its perpendicular points to m's other side, and so a positive bulge lies on the
// center's side.
pub fn bulge_sign(first: End, second: End, chord: Point, m: Line) -> f64
    ensures { result ≡ bulge_sign_of first.p first.t second.t chord m }
{
    let n1 = first.normal();
    let n2 = second.normal();
    let denom = n1.x * n2.y - n1.y * n2.x;
    if scalar::abs(denom) > 1e-12 {
        let s = (chord.x * n2.y - chord.y * n2.x) / denom;
        let center_guess = Point {
            x: first.p.x + s * n1.x,
            y: first.p.y + s * n1.y,
        };
        if m.value_at(center_guess) >= 0.0 {
            return -1.0;
        }
    }
    1.0
}
