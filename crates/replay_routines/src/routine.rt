// The routines by the letters of their rows.
ghost use Rattle.std.specs.Prelude.{◌<◌};

#[derive(Clone, Copy, Debug, PartialEq, Eq)]
pub enum Routine {
    Sin,
    Cos,
    SinCos,
    Atan2,
    Acos,
    Sqrt,
    Abs,
    Min,
    Max,
    Clamp,
}

// In the order of `Routine`; at last what a row of another letter is counted by.
pub const NAMES: [&str; 11] = [
    "sin", "cos", "sin_cos", "atan2", "acos", "sqrt", "abs", "min", "max", "clamp", "unknown",
];

// A letter that no routine has.
#[derive(Clone, Copy, Debug, PartialEq, Eq)]
pub struct UnknownLetter(pub u8);

impl TryFrom<u8> for Routine {
    type Error = UnknownLetter;

    fn try_from(letter: u8) -> Result<Self, UnknownLetter> {
        Ok(match letter {
            b'n' => Routine::Sin,
            b'o' => Routine::Cos,
            b'b' => Routine::SinCos,
            b't' => Routine::Atan2,
            b'r' => Routine::Acos,
            b's' => Routine::Sqrt,
            b'a' => Routine::Abs,
            b'm' => Routine::Min,
            b'x' => Routine::Max,
            b'c' => Routine::Clamp,
            _ => return Err(UnknownLetter(letter)),
        })
    }
}

impl Routine {
    // Its place in the order.
    pub fn index(self) -> usize
        ensures { result < 10 }
    {
        self as usize
    }
}
