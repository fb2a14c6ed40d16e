// Square root of an f64, as IEEE 754 has it, worked out with whole numbers.
#![tactic(auto)]

ghost use Rattle.std.specs.Prelude.{◌≡◌};
ghost use Rattle.root.specs.SquareRoot.{square_root};
ghost use Rattle.root.specs.Norm.{norm};

mod newton;
mod pattern;
mod whole;

// The root of x, rounded to nearest. Of a zero it is that zero, of plus infinity plus infinity, and
// of a NaN or of a number below zero a NaN.
pub fn sqrt(x: f64) -> f64
    ensures { result ≡ square_root x }
{
    if x > 0.0 {
        let bits = f64::to_bits(x);
        if bits < 0x7ff0_0000_0000_0000 {
            return f64::from_bits(pattern::root(bits));
        }
        return x;
    }
    if x == 0.0 {
        return x;
    }
    scalar::not_a_number()
}

// The length of a vector.
#[tactic(auto, unfolding(crate::specs::Norm::norm))]
pub fn norm(x: f64, y: f64) -> f64
    ensures { result ≡ norm x y }
{
    sqrt(x * x + y * y)
}
