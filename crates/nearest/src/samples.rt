// The nearest of the points at equal steps of the angle.
ghost use Rattle.std.specs.Prelude.{◌≡◌};
ghost use Rattle.nearest.specs.Samples.{sample, closer, best_of};

use crate::search::Search;

// The best angle so far and its point's squared distance.
#[derive(Clone, Copy)]
pub struct Best {
    pub t: f64,
    pub d: f64,
}

impl Search {
    fn sample(&self, span: f64, n: u8, i: u8) -> f64
        ensures { result ≡ sample self.now.a span n i }
    {
        self.a.start + span * (f64::from(i) / f64::from(n))
    }

    #[tactic(auto, unfolding(crate::specs::Samples::closer))]
    fn closer(&self, t: f64, best: Best) -> Best
        ensures { result ≡ closer self.now.a self.now.p t best }
    {
        let d = self.squared_dist(t);
        if d < best.d { Best { t, d } } else { best }
    }

    // The best of the n + 1 samples of a span.
    #[tactic(auto, unfolding(crate::specs::Samples::sampled))]
    pub fn best_of(&self, span: f64, n: u8) -> Best
        ensures { result ≡ best_of self.now.a self.now.p span n }
    {
        let mut best = Best {
            t: self.a.start,
            d: f64::MAX,
        };
        for i in 0..=n {
            best = self.closer(self.sample(span, n, i), best);
        }
        best
    }
}
