// The fate of a narrowed bracket.
ghost use Rattle.std.specs.Prelude.{◌≡◌, map};
ghost use Rattle.hits.specs.Hit.{hit_from};
ghost use Rattle.hunt_bracket.specs.Fate.{near, double, judged, fate};

use crate::{Fate, Frame};
use curves::Point;
use hits::{CurveHit, HIT};

#[tactic(auto, unfolding(crate::specs::Fate::near))]
fn near(p: f64, q: f64) -> bool
    ensures { result ≡ near p q }
{
    scalar::abs(p - q) < 1e-7
}

// Whether one of the hits has its angle on a near t. A double nearly always comes from the neighbouring cell, so the newest hit is looked at first. The loop is left by `break` at the
// first that is near: 01, 'Forms'.
fn seen(hits: &[[f64; HIT]], t: f64) -> bool
    ensures { result ≡ double t (map hit_from hits.now) }
{
    let mut found = false;
    for i in (0..hits.len()).rev() {
        if near(CurveHit::from(hits[i]).t_a, t) {
            found = true;
            break;
        }
    }
    found
}

// The tests in their order: outside a, outside b, double.
fn judge(a: Option<f64>, b: Option<f64>, pos: Point, hits: &[[f64; HIT]]) -> Fate
    ensures { result ≡ judged (map hit_from hits.now) pos a b }
{
    let Some(t_a) = a else {
        return Fate::OutsideA;
    };
    let Some(t_b) = b else {
        return Fate::OutsideB;
    };
    if seen(hits, t_a) {
        return Fate::Double;
    }
    Fate::Hit(hits::hit_of(t_a, t_b, pos))
}

impl Frame {
    // The fate of a bracket that was narrowed to the angle t, after the hits so far, each as its numbers.
    #[tactic(auto, unfolding(crate::specs::Fate::fate))]
    pub fn fate(&self, t: f64, hits: &[[f64; HIT]]) -> Fate
        ensures { result ≡ fate self.now (map hit_from hits.now) t }
    {
        let pos = self.point(t);
        judge(
            arc::arc_param_in_span(self.a, t),
            arc::arc_param_in_span(self.b, self.theta(pos)),
            pos,
            hits,
        )
    }
}
