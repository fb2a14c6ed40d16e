// The arccosine of a number.
#![tactic(auto)]

ghost use Rattle.std.specs.Prelude.{◌≡◌};
ghost use Rattle.arccos.specs.Arccos.{in_range, arccosine};

// A NaN is not.
fn in_range(c: f64) -> bool
    ensures { result ≡ in_range c }
{
    (-1.0 <= c) & (c <= 1.0)
}

// The angle from 0 to PI whose cosine is c.
pub fn acos(c: f64) -> f64
    ensures { result ≡ arccosine c }
{
    if in_range(c) {
        return arctan::atan2(root::sqrt((1.0 - c) * (1.0 + c)), c);
    }
    scalar::not_a_number()
}
