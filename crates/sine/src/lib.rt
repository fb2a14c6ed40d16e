// The sine and the cosine, total on every f64, by the fixed-point rule of specs/.
#![tactic(auto)]

mod angle;
mod steps;
mod turns;

ghost use Rattle.std.specs.Prelude.{◌≡◌, ◌*◌, ◌^◌, ◌<◌, false, slice_set};
ghost use Rattle.sine.specs.Angle.{units};
ghost use Rattle.sine.specs.Rule.{sine_units, cosine_units, rounded, ranged, floated, float, sine, cosine};

pub use turns::remainder;

// The sizes at 2^61 below which the sine is the remainder, 2^-26, and the cosine is 1, 2^-27.
const SINE_SMALL: u64 = 34359738368;

const COSINE_SMALL: u64 = 17179869184;

// The sine and the cosine of one angle.
#[derive(Clone, Copy)]
pub struct SinCos {
    pub sin: f64,
    pub cos: f64,
}

// 3 more than the sine and the cosine of an angle, at 2^53. One generic type with `SinCos` would be no plainer: that is the name by which the library gives both.
#[derive(Clone, Copy)]
struct Units {
    sine: u64,
    cosine: u64,
}

// One reading of the table for both.
fn rounded(n: u64) -> Units
    requires { n < 203 * 2 ^ 56 }
    ensures { (result.sine ≡ rounded (sine_units n)) × (result.cosine ≡ rounded (cosine_units n)) }
{
    let p = angle::split(n);
    let t = steps::turned(p.node_sine, p.node_cosine, p.versine, p.sine, p.under);
    let u = steps::turned(p.node_cosine, p.node_sine, p.versine, p.sine, !p.under);
    Units {
        sine: steps::rounded(t),
        cosine: steps::rounded(u),
    }
}

// Hardly ever is one of the two out of range. One test of both is cheaper than bringing each into range, which the processor would have to wait for.
fn floats(r: Units, flip: bool, lent: &mut [f64; 3]) -> f64
    ensures { (result ≡ floated (ranged r.cosine) false) × (lent.new ≡ slice_set lent.old 2 (floated (ranged r.sine) flip)) }
{
    if steps::outside(r.sine) | steps::outside(r.cosine) {
        lent[2] = steps::float(steps::ranged(r.sine), flip);
        return steps::float(steps::ranged(r.cosine), false);
    }
    lent[2] = steps::float(r.sine, flip);
    steps::float(r.cosine, false)
}

// Both of the angle n, the sine negated where `flip`.
#[tactic(auto, unfolding(crate::specs::Rule::places, crate::specs::Rule::float))]
fn turned(n: u64, flip: bool, lent: &mut [f64; 3]) -> f64
    requires { n < 203 * 2 ^ 56 }
    ensures { (result ≡ float (cosine_units n) false) × (lent.new ≡ slice_set lent.old 2 (float (sine_units n) flip)) }
{
    floats(rounded(n), flip, lent)
}

// The cosine of x; its sine goes to the last of the three places lent. Below 2^-26 the sine is the remainder, and below 2^-27 the cosine is 1.
// As one struct both would come back through memory, side by side and stored one by one, and where the code behind the call reads them by one load of 16 bytes the processor has to wait:
// it cannot serve a load from two stores. So the cosine comes back by itself, and the sine stands where no such load reaches it: at the end of the three, behind two that nobody reads.
pub fn cos_beside_sin(x: f64, lent: &mut [f64; 3]) -> f64
    ensures { (result ≡ cosine x) × (lent.new ≡ slice_set lent.old 2 (sine x)) }
{
    let n = angle::angle(x);
    if n < COSINE_SMALL {
        let r = remainder(x);
        lent[2] = r;
        return fixed::pick(r == r, 1.0, r);
    }
    let cos = turned(n, x < 0.0, lent);
    if n < SINE_SMALL {
        lent[2] = remainder(x);
        return cos;
    }
    cos
}

pub fn sin_cos(x: f64) -> SinCos
    ensures { (result.sin ≡ sine x) × (result.cos ≡ cosine x) }
{
    let mut lent = [0.0; 3];
    let cos = cos_beside_sin(x, &mut lent);
    SinCos { sin: lent[2], cos }
}

pub fn sin(x: f64) -> f64
    ensures { result ≡ sine x }
{
    let mut lent = [0.0; 3];
    let _ = cos_beside_sin(x, &mut lent);
    lent[2]
}

pub fn cos(x: f64) -> f64
    ensures { result ≡ cosine x }
{
    let mut lent = [0.0; 3];
    cos_beside_sin(x, &mut lent)
}
