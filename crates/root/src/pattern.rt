// The bit pattern of the root of a finite number above zero, from that number's pattern.
ghost use Rattle.std.specs.Prelude.{◌<◌};
ghost use Rattle.root.specs.Steps.{Spread, Rooted};

use crate::{newton, whole};

// A number by its 53 digits, and how many places they stand above 2^-2148, the square of the
// smallest number. `like` is the pattern of a normal number with these digits, at a place as even or
// odd, so that its root has the same digits.
#[derive(Clone, Copy)]
struct Number {
    digits: u64,
    scale: u64,
    like: u64,
}

impl Number {
    // The number of a pattern. A subnormal one has fewer digits, which move up.
    fn of(bits: u64) -> Self
        requires { (0 < bits) × (bits < 0x7ff0_0000_0000_0000) }
        ensures { Spread bits result.digits result.scale result.like }
    {
        if bits < 0x10_0000_0000_0000 {
            let zeros = u64::leading_zeros(bits) as u64 - 11;
            let digits = bits << zeros;
            return Number {
                digits,
                scale: 1074 - zeros,
                like: digits % 0x10_0000_0000_0000 + (1023 + zeros % 2) * 0x10_0000_0000_0000,
            };
        }
        Number {
            digits: scalar::digits_of(bits),
            scale: scalar::field(bits) + 1073,
            like: bits,
        }
    }
}

// The pattern of the root of the number of the pattern `bits`. The word has the number's digits at its
// top, one place lower where the scale is even, so that an even number of places is left below it.
pub fn root(bits: u64) -> u64
    requires { (0 < bits) × (bits < 0x7ff0_0000_0000_0000) }
    ensures { Rooted bits result }
{
    let x = Number::of(bits);
    let word = x.digits << (10 + x.scale % 2);
    let guess = newton::guess(x.like);
    (x.scale / 2 - 26) * 0x10_0000_0000_0000 + whole::nearest(word, guess)
}
