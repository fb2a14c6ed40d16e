// Absolute value, minimum, maximum and clamp by document 01's rules for zeros and NaN, the constants of
// angles, and bit patterns with the one NaN.
#![tactic(auto)]

ghost use Rattle.std.specs.Prelude.{◌≡◌};
ghost use Rattle.std.specs.Float.{nan, binary64};
ghost use Rattle.std.specs.Float.Ieee.{to_bits, of_bits};
ghost use Rattle.laws.specs.Size.{abs};
ghost use Rattle.laws.specs.Fields.{field, digits_of};
ghost use Rattle.scalar.specs.Angles.{tau, pi, frac_pi2};
ghost use Rattle.scalar.specs.Extremes.{minimum, maximum};
ghost use Rattle.scalar.specs.Clamp.{bounded, clamp};

pub const TAU: f64 = 6.283185307179586;

pub const PI: f64 = 3.141592653589793;

pub const FRAC_PI_2: f64 = 1.5707963267948966;

// A constant has no contract of its own. These three hold the constants to their definitions.
fn tau() -> f64
    ensures { result ≡ tau }
{
    TAU
}

fn pi() -> f64
    ensures { result ≡ pi }
{
    PI
}

fn frac_pi_2() -> f64
    ensures { result ≡ frac_pi2 }
{
    FRAC_PI_2
}

// The NaN, as bits 7ff8000000000000. An answer that is the NaN is made here. The language has no bits of a NaN: `f64::from_bits` is undefined
// there, and a constant may not be one. The compiler works the quotient out and leaves no division to a processor whose NaN has a sign:
// `bench/arm` shows it.
pub fn not_a_number() -> f64
    ensures { result ≡ nan }
{
    0.0 / 0.0
}

// The number itself. A NaN comes back as the one of `not_a_number`: the proofs have one NaN, the machine many patterns.
#[tactic(auto, using(crate::proofs::Rules::nan_is))]
pub fn with_one_nan(number: f64) -> f64
    ensures { result ≡ number }
{
    if number.is_nan() {
        return not_a_number();
    }
    number
}

// The bit pattern of x. Every NaN has the same one, 7ff8000000000000.
pub fn to_bits(x: f64) -> u64
    ensures { result ≡ to_bits binary64 x }
{
    std::num::f64_to_bits_with_nan(x)
}

// The number of a bit pattern. Every pattern of a NaN gives the NaN.
pub fn from_bits(bits: u64) -> f64
    ensures { result ≡ of_bits binary64 bits }
{
    std::num::f64_from_bits_with_nan(bits)
}

// The exponent's field of a pattern without a sign.
pub fn field(bits: u64) -> u64
    ensures { result ≡ field bits }
{
    bits / 0x10_0000_0000_0000
}

// The 53 digits of a pattern: the leading one is not written.
pub fn digits_of(bits: u64) -> u64
    ensures { result ≡ digits_of bits }
{
    bits % 0x10_0000_0000_0000 + 0x10_0000_0000_0000
}

// The absolute value: the sign bit is cleared.
#[tactic(auto, using(crate::proofs::Rules::nan_is), unfolding(laws::specs::Size::abs))]
pub fn abs(x: f64) -> f64
    ensures { result ≡ abs x }
{
    if x.is_nan() {
        return not_a_number();
    }
    f64::from_bits(f64::to_bits(x) % 0x8000_0000_0000_0000)
}

// The smaller of the two; of two zeros the second; beside a NaN the other.
#[tactic(auto, using(crate::proofs::Rules::minimum_beside_nan, crate::proofs::Rules::minimum_number))]
pub fn min(x: f64, y: f64) -> f64
    ensures { result ≡ minimum x y }
{
    if y.is_nan() {
        return with_one_nan(x);
    }
    if x < y { x } else { y }
}

// The larger of the two; of two zeros the second; beside a NaN the other. One function for both would be no plainer: 01 names two, and they share one `if` alone.
#[tactic(auto, using(crate::proofs::Rules::maximum_beside_nan, crate::proofs::Rules::maximum_number))]
pub fn max(x: f64, y: f64) -> f64
    ensures { result ≡ maximum x y }
{
    if y.is_nan() {
        return with_one_nan(x);
    }
    if y < x { x } else { y }
}

// x, or the end that it lies beyond.
fn bounded(x: f64, low: f64, high: f64) -> f64
    ensures { result ≡ bounded x low high }
{
    if x < low {
        return low;
    }
    if high < x {
        return high;
    }
    x
}

// Where x is no number or the ends are no range, the NaN. The test for it comes last, so that the compiler makes no branch of the others.
#[tactic(auto, using(crate::proofs::Rules::clamp_range, crate::proofs::Rules::clamp_no_range))]
pub fn clamp(x: f64, low: f64, high: f64) -> f64
    ensures { result ≡ clamp x low high }
{
    if low <= high {
        return with_one_nan(bounded(x, low, high));
    }
    not_a_number()
}
