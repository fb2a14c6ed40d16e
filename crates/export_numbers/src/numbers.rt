// What C's numbers stand for.
#![tactic(auto, unfolding(crate::specs::Lent::lent_number, crate::specs::Lent::lent_arc, crate::specs::Lent::lent_curve))]

ghost use Rattle.std.specs.Prelude.{◌≡◌};
ghost use Rattle.export_numbers.specs.Lent.{lent_number, lent_arc, lent_curve};

use curves::{Arc, Curve, Point};

// A number that was not lent is the NaN.
pub fn number(numbers: &[f64], i: usize) -> f64
    ensures { result ≡ lent_number numbers.now i }
{
    numbers.get(i).copied().unwrap_or(scalar::not_a_number())
}

pub fn arc(numbers: &[f64], marks: u32) -> Arc
    ensures { result ≡ lent_arc numbers.now marks }
{
    Arc {
        center: Point {
            x: number(numbers, 0),
            y: number(numbers, 1),
        },
        radius: number(numbers, 2),
        radius_b: number(numbers, 3),
        rotation: number(numbers, 4),
        start: number(numbers, 5),
        end: number(numbers, 6),
        ccw: marks % 2 == 1,
        closed: marks / 2 % 2 == 1,
        is_ellipse: marks / 4 % 2 == 1,
    }
}

pub fn curve(numbers: &[f64], marks: u32) -> Curve
    ensures { result ≡ lent_curve numbers.now marks }
{
    if marks / 8 % 2 == 1 {
        return Curve::Segment(
            number(numbers, 0),
            number(numbers, 1),
            number(numbers, 2),
            number(numbers, 3),
        );
    }
    Curve::Arc(arc(numbers, marks))
}
