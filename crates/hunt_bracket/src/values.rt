// The inside-outside value of an angle, and the parameter on b of a point.
ghost use Rattle.std.specs.Prelude.{◌≡◌};
ghost use Rattle.hunt_bracket.specs.Frame.{frame, point, unit, value, theta};

use crate::Frame;
use curves::{Arc, Point};

impl Frame {
    #[tactic(auto, using(crate::proofs::Frames::sin_cos_is), unfolding(crate::specs::Frame::frame))]
    pub fn new(a: Arc, b: Arc) -> Frame
        ensures { result ≡ frame a b }
    {
        Frame {
            a,
            b,
            turn_a: sine::sin_cos(a.rotation),
            turn_b: sine::sin_cos(b.rotation),
            radii: arc::arc_radii(b),
        }
    }

    // The point of a at the angle t.
    #[tactic(auto, unfolding(crate::specs::Frame::point))]
    pub fn point(&self, t: f64) -> Point
        ensures { result ≡ point self.now t }
    {
        let a = self.a;
        arc::turn_point(a.center, a.radius, a.radius_b, self.turn_a, t)
    }

    // A point in the frame in which b's curve is the unit circle.
    #[tactic(auto, unfolding(crate::specs::Frame::unit))]
    fn unit(&self, p: Point) -> Point
        ensures { result ≡ unit self.now p }
    {
        arc::to_unit(p, self.b.center, self.turn_b, self.radii)
    }

    // 000's g at a's point: 0 on b, negative inside.
    #[tactic(auto, unfolding(crate::specs::Frame::value))]
    pub fn value(&self, t: f64) -> f64
        ensures { result ≡ value self.now t }
    {
        let u = self.unit(self.point(t));
        u.x * u.x + u.y * u.y - 1.0
    }

    // The angle on b of a point.
    #[tactic(auto, unfolding(crate::specs::Frame::theta))]
    pub fn theta(&self, p: Point) -> f64
        ensures { result ≡ theta self.now p }
    {
        let u = self.unit(p);
        arctan::atan2(u.y, u.x)
    }
}
