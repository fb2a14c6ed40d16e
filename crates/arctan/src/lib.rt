// The arctangent of two numbers, by a table of its series at the thirty-seconds from 0 to 1: the rule of specs/Rule.antt.
#![tactic(auto)]

mod horner;
mod table;

ghost use Rattle.std.specs.Prelude.{◌≡◌, ◌<◌, ◌≤◌};
ghost use Rattle.arctan.specs.Sizes.{InUnit};
ghost use Rattle.laws.specs.Kind.{negative};
ghost use Rattle.arctan.specs.Rule.{place_of, arc_of, angle_of, steep_of, smaller, larger, edge_size, edge_of, arctangent};

use scalar::{FRAC_PI_2, PI};

const FRAC_PI_4: f64 = 0.7853981633974483;

const THREE_QUARTERS_PI: f64 = 2.356194490192345;

// 2^-26
const TINY: f64 = 1.4901161193847656e-8;

const LARGEST: f64 = 1.7976931348623157e308;

// FRAC_PI_2 and PI in units of 2^-61.
const FRAC_PI_2_UNITS: u64 = 3622009729038561280;

const PI_UNITS: u64 = 7244019458077122560;

// 1/32 at 2^62, the width of a row's cell: 2^57.
const CELL: u64 = 0x200_0000_0000_0000;

// The whole part of 2^62 u: the 53 digits of u with ten zeros behind them, less those that its exponent puts below the point. A subnormal
// number's digits are read wrong, and all are dropped. There is no branch, so that the table is read by a load. That u is from 0 to 1 is a clause of the
// three functions that take it, and no type: a struct of one number, opened in each of them, would be no plainer.
fn place(u: f64) -> u64
    requires { InUnit u }
    ensures { result ≡ place_of u }
{
    let bits = f64::to_bits(u);
    let dropped = (1023 - scalar::field(bits)).min(63);
    scalar::digits_of(bits) * 1024 >> dropped
}

// The arctangent of u in units of 2^-61.
fn arc(u: f64) -> u64
    requires { InUnit u }
    ensures { (result ≡ arc_of u) × (result ≤ 2558044588346441728) }
{
    let n = place(u);
    let r = table::look(n / CELL);
    horner::series(r, n % CELL)
}

// The angle in the quadrant of (y, x), where u is the smaller size over the larger and steep says that y is the larger.
// y and x go from step to step as `atan2` takes them: a struct of the two would be made there and opened in each.
fn angle(y: f64, x: f64, steep: bool, u: f64) -> f64
    requires { InUnit u }
    ensures { result ≡ angle_of y x steep u }
{
    let n = arc(u);
    let n = fixed::pick(steep, FRAC_PI_2_UNITS - n, n);
    let n = fixed::pick(x < 0.0, PI_UNITS - n, n);
    let c = horner::float(n);
    fixed::pick(y < 0.0, -c, c)
}

// The sign bit: x is below 0 or is -0.
#[tactic(auto, using(laws::proofs::Kind::negative_is))]
fn is_negative(x: f64) -> bool
    ensures { result ≡ negative x }
{
    (x < 0.0) | ((x == 0.0) & (1.0 / x < 0.0))
}

fn edge_size(y: f64, x: f64) -> f64
    ensures { result ≡ edge_size y x }
{
    let behind = is_negative(x);
    let level = fixed::pick(behind, PI, 0.0);
    let corner = fixed::pick(behind, THREE_QUARTERS_PI, FRAC_PI_4);
    let far = x.is_infinite();
    fixed::pick(
        y.is_infinite(),
        fixed::pick(far, corner, FRAC_PI_2),
        fixed::pick(far | (y == 0.0), level, FRAC_PI_2),
    )
}

// A NaN, a zero or an infinity, after C's Annex F.
fn edge(y: f64, x: f64) -> f64
    ensures { result ≡ edge_of y x }
{
    if y.is_nan() | x.is_nan() {
        return scalar::not_a_number();
    }
    let a = edge_size(y, x);
    fixed::pick(is_negative(y), -a, a)
}

// What is rare: a quotient below 2^-26, a zero, an infinity or a NaN.
fn rare(y: f64, x: f64, steep: bool, low: f64, high: f64) -> f64
    requires { (steep ≡ steep_of y x) × (low ≡ smaller y x) × (high ≡ larger y x) }
    ensures { result ≡ arctangent y x }
{
    if (0.0 < low) & (high <= LARGEST) {
        let u = low / high;
        if !steep & ((0.0 < x) & (u < TINY)) {
            return y / x;
        }
        return angle(y, x, steep, u);
    }
    edge(y, x)
}

pub fn atan2(y: f64, x: f64) -> f64
    ensures { result ≡ arctangent y x }
{
    let b = fixed::size(y);
    let a = fixed::size(x);
    let steep = a < b;
    let low = fixed::pick(steep, a, b);
    let high = fixed::pick(steep, b, a);
    let u = low / high;
    // one test that nearly always holds, so that no quadrant costs a wrong guess of the machine's
    if ((0.0 < low) & (high <= LARGEST)) & !(u < TINY) {
        return angle(y, x, steep, u);
    }
    rare(y, x, steep, low, high)
}
