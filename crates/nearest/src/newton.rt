// Newton's steps to the angle of least distance.
ghost use Rattle.std.specs.Prelude.{◌≡◌};
ghost use Rattle.nearest.specs.Newton.{slope, bend, slopes_at, newton};

use crate::search;
use crate::search::Search;
use crate::thirds::Stretch;
use curves::Point;

// The step of the difference quotients.
const DT: f64 = 1e-6;

// 000's f and df at one angle.
#[derive(Clone, Copy)]
pub struct Slopes {
    pub f: f64,
    pub df: f64,
}

// f, from the point q at an angle and the points qp and qm a step after and before it.
fn slope(p: Point, q: Point, qp: Point, qm: Point) -> f64
    ensures { result ≡ slope p q qp qm }
{
    (p.x - q.x) * (qp.x - qm.x) / (2.0 * DT) + (p.y - q.y) * (qp.y - qm.y) / (2.0 * DT)
}

// df, likewise.
fn bend(p: Point, q: Point, qp: Point, qm: Point) -> f64
    ensures { result ≡ bend p q qp qm }
{
    -search::squared_dist(qp, qm) / (4.0 * DT * DT)
        + (p.x - q.x) * (qp.x - 2.0 * q.x + qm.x) / (DT * DT)
        + (p.y - q.y) * (qp.y - 2.0 * q.y + qm.y) / (DT * DT)
}

impl Search {
    #[tactic(auto, unfolding(crate::specs::Newton::slopes_at))]
    fn slopes_at(&self, t: f64) -> Slopes
        ensures { result ≡ slopes_at self.now.a self.now.p t }
    {
        let q = self.at(t);
        let qp = self.at(t + DT);
        let qm = self.at(t - DT);
        Slopes {
            f: slope(self.p, q, qp, qm),
            df: bend(self.p, q, qp, qm),
        }
    }

    // At most 8 steps, each kept in the stretch.
    #[tactic(auto, unfolding(crate::specs::Newton::newton))]
    pub fn newton(&self, within: Stretch, from: f64) -> f64
        ensures { result ≡ newton self.now.a self.now.p within.lo within.hi 8 from }
    {
        let mut t = from;
        for _ in 0..8u32 {
            let s = self.slopes_at(t);
            if scalar::abs(s.df) < 1e-20 {
                break;
            }
            t = within.clamp(t - s.f / s.df);
        }
        t
    }
}
