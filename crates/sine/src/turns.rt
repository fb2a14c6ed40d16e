// x % TAU, worked out with whole numbers: TAU is a whole number of 2^-50, and so is every number from TAU on. The language's own % compiles to a function of the C library, and
// a program with it asks for that function's newest version, which an older machine has not.
ghost use Rattle.std.specs.Prelude.{◌≡◌, ◌*◌, ◌^◌, ◌<◌, ◌%◌};
ghost use Rattle.std.specs.Float.{binary64};
ghost use Rattle.std.specs.Float.Ieee.{rem};
ghost use Rattle.sine.specs.Angle.{tau};

use scalar::TAU;

// How many times 2^-50 TAU is.
const TURN: u64 = 7074237752028440;

// digits * 2^places, less whole turns. Ten places at once leave room in a word.
fn less_turns(digits: u64, places: u64) -> u64
    requires { digits < 2 ^ 53 }
    ensures { result ≡ digits * 2 ^ places % 7074237752028440 }
{
    // An x below 8192 needs ten places at most, and waits for no count of turns. Beyond, the last step moves one to ten places: with none left it would cost a remainder more.
    if places <= 10 {
        return (digits << places) % TURN;
    }
    let turns = (places - 1) / 10;
    let mut r = digits;
    for _ in 0..turns {
        r = (r << 10) % TURN;
    }
    (r << (places - 10 * turns)) % TURN
}

pub fn remainder(x: f64) -> f64
    ensures { result ≡ rem binary64 x tau }
{
    if x.is_nan() {
        return scalar::not_a_number();
    }
    let a = scalar::abs(x);
    if a < TAU {
        return x;
    }
    let bits = f64::to_bits(a);
    if 0x7ff0_0000_0000_0000 <= bits {
        return scalar::not_a_number();
    }
    let r = less_turns(scalar::digits_of(bits), scalar::field(bits) - 1025);
    let size = (r as f64) * 8.881784197001252e-16;
    if x < 0.0 {
        return -size;
    }
    size
}
