// The checks of a call, in 01's order: 1 over all its numbers, then 2, 3, 4, then the rest. specs/Answer.antt says the number and the values of what a call answers.
#![tactic(auto)]

ghost use Rattle.std.specs.Prelude.{◌≡◌, [], ◌∷◌, ◌||◌, false, not};
ghost use Rattle.std.specs.Float.Ieee.{lt};
ghost use Rattle.std.specs.Float.Ieee.Scale.{finite};
ghost use Rattle.laws.specs.Size.{abs};
ghost use Rattle.checks.specs.Given.{coordinate, angle, tested, point, arc_numbers, curve_numbers};
ghost use Rattle.checks.specs.Refusal.{number_of, refusal_told, deep, refusal, unfaulted};

use curves::{Arc, Curve, Point};

// Why a call refuses, by document 01's numbers.
#[derive(Clone, Copy, Debug, PartialEq, Eq)]
pub enum Refusal {
    NotANumber = 1,
    BeyondLimit = 2,
    TooDeep = 3,
    RoomTooShort = 4,
    Degenerate = 5,
    OutsideSpan = 6,
    MalformedLine = 7,
    NoSuchRecord = 8,
    TableFull = 9,
}

impl From<Refusal> for u8 {
    ghost from_gives = { λ r n. n ≡ number_of r };

    fn from(r: Refusal) -> u8 {
        r as u8
    }
}

// For u32 as well: C is given one, a line of arcdesk prints a byte.
impl From<Refusal> for u32 {
    ghost from_gives = { λ r n. n ≡ number_of r };

    fn from(r: Refusal) -> u32 {
        r as u32
    }
}

// The largest depth that is taken.
pub const DEEPEST: u32 = 3;

// What the numbers tested so far have shown.
#[derive(Clone, Copy)]
pub struct Faults {
    pub unreal: bool,
    pub beyond: bool,
}

#[tactic(auto, using(crate::proofs::Tested::is_finite_finite), unfolding(crate::specs::Given::tested, crate::specs::Refusal::refusal))]
impl Faults {
    // `none` and no `default`: a call's tests begin with it, and it reads so.
    pub fn none() -> Self
        ensures { result ≡ unfaulted }
    {
        Faults {
            unreal: false,
            beyond: false,
        }
    }

    // One number more, with its limit. A NaN is not below infinity either. By the size, which the limit needs too, and not by `is_finite`, which works out a difference besides: a call that does little
    // else takes longer by it.
    #[tactic(auto, using(crate::proofs::Tested::below_infinity))]
    fn number(self, x: f64, limit: f64) -> Self
        ensures { result ≡ record { unreal = self.unreal || not (finite x); beyond = self.beyond || lt limit (abs x) } }
    {
        let size = scalar::abs(x);
        Faults {
            unreal: self.unreal | !(size < f64::INFINITY),
            beyond: self.beyond | (limit < size),
        }
    }

    // A coordinate, a radius, a part of a direction or a bulge.
    pub fn coordinate(self, x: f64) -> Self
        ensures { result ≡ tested self (coordinate x ∷ []) }
    {
        self.number(x, 1048576.0)
    }

    pub fn angle(self, x: f64) -> Self
        ensures { result ≡ tested self (angle x ∷ []) }
    {
        self.number(x, 1024.0)
    }

    pub fn point(self, p: Point) -> Self
        ensures { result ≡ tested self (point p) }
    {
        self.coordinate(p.x).coordinate(p.y)
    }

    // All seven numbers, whatever the marks.
    pub fn arc(self, a: Arc) -> Self
        ensures { result ≡ tested self (arc_numbers a) }
    {
        self.point(a.center)
            .coordinate(a.radius)
            .coordinate(a.radius_b)
            .angle(a.rotation)
            .angle(a.start)
            .angle(a.end)
    }

    // The numbers of a segment's ends or of an arc.
    pub fn curve(self, c: Curve) -> Self
        ensures { result ≡ tested self (curve_numbers c) }
    {
        match c {
            Curve::Segment(x1, y1, x2, y2) => self
                .coordinate(x1)
                .coordinate(y1)
                .coordinate(x2)
                .coordinate(y2),
            Curve::Arc(a) => self.arc(a),
        }
    }

    // The first check that fails. A call with no depth or no room has false for them.
    pub fn refusal(self, deep: bool, short: bool) -> Result<(), Refusal>
        ensures { refusal_told result ≡ refusal self deep short }
    {
        if self.unreal {
            return Err(Refusal::NotANumber);
        }
        if self.beyond {
            return Err(Refusal::BeyondLimit);
        }
        if deep {
            return Err(Refusal::TooDeep);
        }
        if short {
            return Err(Refusal::RoomTooShort);
        }
        Ok(())
    }

    // Of a call with neither depth nor room.
    pub fn passed(self) -> Result<(), Refusal>
        ensures { refusal_told result ≡ refusal self false false }
    {
        self.refusal(false, false)
    }
}

pub fn deep(depth: u32) -> bool
    ensures { result ≡ deep depth }
{
    DEEPEST < depth
}
