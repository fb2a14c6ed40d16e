// The narrowing of a bracket by halving.
ghost use Rattle.std.specs.Prelude.{◌≡◌};
ghost use Rattle.laws.specs.Middle.{middle};
ghost use Rattle.hunt_bracket.specs.Frame.{value};
ghost use Rattle.hunt_bracket.specs.Narrow.{opened, middle_of, halved, narrowed, last};

use crate::{Cell, Frame, Stretch};

impl From<Cell> for Stretch {
    ghost from_gives = { λ c s. s ≡ opened c };

    fn from(c: Cell) -> Stretch {
        Stretch {
            lo: c.lo,
            hi: c.hi,
            g_lo: c.g_lo,
        }
    }
}

impl Stretch {
    fn middle(self) -> f64
        ensures { result ≡ middle_of self }
    {
        0.5 * (self.lo + self.hi)
    }

    // One halving. The half that is kept has ends of opposite sign or an end at zero.
    #[tactic(auto, unfolding(crate::specs::Narrow::halved))]
    fn halved(self, f: &Frame) -> Stretch
        ensures { result ≡ halved (value f.now) self }
    {
        let mid = self.middle();
        let g_mid = f.value(mid);
        if self.g_lo * g_mid <= 0.0 {
            Stretch { hi: mid, ..self }
        } else {
            Stretch {
                lo: mid,
                g_lo: g_mid,
                ..self
            }
        }
    }
}

#[tactic(auto, using(crate::proofs::Halvings::narrowed_none, crate::proofs::Halvings::narrowed_more))]
fn halvings(f: &Frame, from: Stretch) -> Stretch
    ensures { result ≡ narrowed (value f.now) 60 from }
{
    let mut s = from;
    for _ in 0..60u32 {
        s = s.halved(f);
    }
    s
}

impl Frame {
    // The angle to which a cell that brackets is narrowed.
    #[tactic(auto, unfolding(crate::specs::Narrow::last))]
    pub fn narrow(&self, c: Cell) -> f64
        ensures { result ≡ last (value self.now) (opened c) }
    {
        halvings(self, Stretch::from(c)).middle()
    }
}
