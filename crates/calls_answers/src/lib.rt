// What the calls answer, as numbers. specs/Shape.antt says the number and the values of each answer.
#![tactic(auto, unfolding(crate::specs::Floats::floats))]

ghost use Rattle.std.specs.Prelude.{◌≡◌, ◌≤◌, [], ◌∷◌, ◌++◌, length, pos, refl};
ghost use Rattle.std.specs.Float.{binary64};
ghost use Rattle.std.specs.Float.Ieee.{of_int};
ghost use Rattle.std.proofs.Common.{rules};
ghost use Rattle.checks.specs.Refusal.{accepted};
ghost use Rattle.checks.specs.Answer.{Answer, values};
ghost use Rattle.calls_answers.specs.Floats.{floats};
ghost use Rattle.calls_answers.specs.Shape.{mark, near_told, converted_told, circumscribed_told, circle_told, ellipse_told};

use curves::{Point, Radii};
use shapes::{Circle, Circumscribed, Converted, Fitted, Near};

// What a call gives back, as the numbers that C reads.
pub trait Numbers<const N: usize> {
    ghost says: { Self → Answer };

    fn numbers(self) -> [f64; N]
        ensures values { result ≡ (says self).numbers ++ floats (says self).counts }
        ensures count { length result ≡ N };

    ghost accepts: { (x : Self) → (says x).refusal ≡ accepted };

    // An array of them fits into memory.
    ghost few: { N ≤ 8 };
}

impl Numbers<1> for f64 {
    ghost says = { λ x. values (x ∷ []) };

    ghost accepts = { λ x. refl };

    ghost few = { Prim.search rules };

    fn numbers(self) -> [f64; 1] {
        [self]
    }
}

impl Numbers<2> for Point {
    ghost says = { λ p. values (p.x ∷ p.y ∷ []) };

    ghost accepts = { λ p. refl };

    ghost few = { Prim.search rules };

    fn numbers(self) -> [f64; 2] {
        [self.x, self.y]
    }
}

impl Numbers<2> for Radii {
    ghost says = { λ r. values (r.a ∷ r.b ∷ []) };

    ghost accepts = { λ r. refl };

    ghost few = { Prim.search rules };

    fn numbers(self) -> [f64; 2] {
        [self.a, self.b]
    }
}

fn mark(b: bool) -> f64
    ensures { result ≡ of_int binary64 (pos (mark b)) }
{
    f64::from(u8::from(b))
}

impl Numbers<3> for Near {
    ghost says = { near_told };

    ghost accepts = { λ n. refl };

    ghost few = { Prim.search rules };

    fn numbers(self) -> [f64; 3] {
        [self.dist, self.pos.x, self.pos.y]
    }
}

impl Numbers<6> for Converted {
    ghost says = { converted_told };

    ghost accepts = { λ c. refl };

    ghost few = { Prim.search rules };

    fn numbers(self) -> [f64; 6] {
        let Converted {
            center,
            start,
            end,
            rx,
            ry,
        } = self;
        [center.x, center.y, start, end, rx, ry]
    }
}

impl Numbers<6> for Circumscribed {
    ghost says = { circumscribed_told };

    ghost accepts = { λ c. refl };

    ghost few = { Prim.search rules };

    fn numbers(self) -> [f64; 6] {
        [
            self.center.x,
            self.center.y,
            self.radius,
            self.start,
            self.end,
            mark(self.ccw),
        ]
    }
}

impl Numbers<3> for Circle {
    ghost says = { circle_told };

    ghost accepts = { λ c. refl };

    ghost few = { Prim.search rules };

    fn numbers(self) -> [f64; 3] {
        [self.center.x, self.center.y, self.radius]
    }
}

impl Numbers<8> for Fitted {
    ghost says = { ellipse_told };

    ghost accepts = { λ f. refl };

    ghost few = { Prim.search rules };

    fn numbers(self) -> [f64; 8] {
        [
            self.center.x,
            self.center.y,
            self.rx,
            self.ry,
            self.rotation,
            self.start,
            self.end,
            mark(self.ccw),
        ]
    }
}
