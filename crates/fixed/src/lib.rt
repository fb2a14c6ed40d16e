// What the fixed-point rules of the sine and of the arctangent share.
#![tactic(auto)]

ghost use Rattle.std.specs.Prelude.{◌≡◌, cond, ◌≤◌, ◌^◌};
ghost use Rattle.fixed.specs.High.{high};
ghost use Rattle.fixed.specs.Size.{size_of};

// x * y / 2^62 without the product of the lower halves.
#[tactic(auto, unfolding(crate::specs::High::high))]
pub fn high(x: u64, y: u64) -> u64
    requires { (x ≤ 2 ^ 63) × (y ≤ 2 ^ 62) }
    ensures { result ≡ high x y }
{
    let a = x / 2147483648;
    let b = x % 2147483648;
    let c = y / 2147483648;
    let d = y % 2147483648;
    a * c + a * d / 2147483648 + b * c / 2147483648
}

// x where b, and y otherwise: both are worked out, and no branch is made.
pub fn pick<T: Copy>(b: bool, x: T, y: T) -> T
    ensures { result ≡ cond b x y }
{
    if b { x } else { y }
}

// The size of x: x itself where x is a NaN or a zero.
#[tactic(auto, unfolding(crate::specs::Size::size_of))]
pub fn size(x: f64) -> f64
    ensures { result ≡ size_of x }
{
    pick(x < 0.0, -x, x)
}
