// The shrinking of a stretch of angles around the least distance.
ghost use Rattle.std.specs.Prelude.{◌≡◌};
ghost use Rattle.scalar.specs.Clamp.{clamp};
ghost use Rattle.nearest.specs.Thirds.{between, shrunk, thirds};

use crate::search::Search;

#[derive(Clone, Copy)]
pub struct Stretch {
    pub lo: f64,
    pub hi: f64,
}

impl Stretch {
    pub fn between(s: f64, e: f64) -> Self
        ensures { result ≡ between s e }
    {
        Stretch {
            lo: scalar::min(s, e),
            hi: scalar::max(s, e),
        }
    }

    pub fn clamp(self, t: f64) -> f64
        ensures { result ≡ clamp t self.lo self.hi }
    {
        scalar::clamp(t, self.lo, self.hi)
    }
}

impl Search {
    // The outer third beside the farther of the two inner points is dropped.
    #[tactic(auto, unfolding(crate::specs::Thirds::shrunk))]
    fn shrink(&self, s: Stretch) -> Stretch
        ensures { result ≡ shrunk self.now.a self.now.p s }
    {
        let m1 = s.lo + (s.hi - s.lo) / 3.0;
        let m2 = s.hi - (s.hi - s.lo) / 3.0;
        if self.squared_dist(m1) < self.squared_dist(m2) {
            Stretch { hi: m2, ..s }
        } else {
            Stretch { lo: m1, ..s }
        }
    }

    #[tactic(auto, unfolding(crate::specs::Thirds::thirds))]
    pub fn thirds(&self, from: Stretch) -> Stretch
        ensures { result ≡ thirds self.now.a self.now.p 40 from }
    {
        let mut s = from;
        for _ in 0..40u32 {
            s = self.shrink(s);
        }
        s
    }
}
