// From the argument to the nearest node and the rest.
ghost use Rattle.std.specs.Prelude.{◌≡◌, ◌+◌, ◌-◌, ◌*◌, ◌^◌, ◌<◌, ◌≤◌};
ghost use Rattle.std.specs.Float.{binary64};
ghost use Rattle.std.specs.Float.Ieee.{rem};
ghost use Rattle.laws.specs.Fields.{field, digits_of};
ghost use Rattle.sine.specs.Angle.{tau, units};
ghost use Rattle.sine.specs.Split.{Parts};

use crate::steps;
use scalar::TAU;

// The digits of a number's pattern, the leading one among them, moved up by its exponent's field less `low`.
fn moved(bits: u64, low: u64) -> u64
    requires { (low ≤ field bits) × (field bits < low + 12) }
    ensures { result ≡ digits_of bits * 2 ^ (field bits - low) }
{
    scalar::digits_of(bits) << (scalar::field(bits) - low)
}

// The size of x % TAU at 2^61. Below TAU the remainder is x, and from 2^-9 on all its digits stand above the unit then; below 8192 it is taken in whole numbers of 2^-50, which x and
// TAU are. The NaN is tested first: a compiler that knows that x is none has one instruction for its size.
pub fn angle(x: f64) -> u64
    ensures { (result ≡ units (rem binary64 x tau)) × (result < 203 * 2 ^ 56) }
{
    if x.is_nan() {
        return 0;
    }
    let a = scalar::abs(x);
    let bits = f64::to_bits(a);
    if a < TAU {
        if 0x3f60_0000_0000_0000 <= bits {
            return moved(bits, 1014);
        }
        return std::num::truncating_f64_to_u64(a * 2305843009213693952.0);
    }
    if a < 8192.0 {
        return moved(bits, 1025) % 7074237752028440 * 2048;
    }
    let r = crate::remainder(x);
    if r.is_nan() {
        return 0;
    }
    std::num::truncating_f64_to_u64(fixed::size(r) * 2305843009213693952.0)
}

// An angle's nearest node, as its row of the table, whether the angle lies below it, and one less the cosine and the sine of the rest.
#[derive(Clone, Copy)]
pub struct Place {
    pub node_sine: u64,
    pub node_cosine: u64,
    pub under: bool,
    pub versine: u64,
    pub sine: u64,
}

// The bound on n is a clause of the three functions that take it and no type: a struct of one number, opened in each, would be no plainer.
pub fn split(n: u64) -> Place
    requires { n < 203 * 2 ^ 56 }
    ensures { Parts n result.node_sine result.node_cosine result.under result.versine result.sine }
{
    let j = (n + 72057594037927936) / 144115188075855872;
    let c = j * 144115188075855872;
    let g = steps::apart(n, c);
    let z = fixed::high(g, g);
    Place {
        node_sine: sine_table::node_sine(j),
        node_cosine: sine_table::node_cosine(j),
        under: n < c,
        versine: steps::short_versine(z),
        sine: steps::short_sine(g, z),
    }
}
