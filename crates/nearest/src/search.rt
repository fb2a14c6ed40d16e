// An arc and the point whose nearest point on the arc is sought.
ghost use Rattle.std.specs.Prelude.{◌≡◌};
ghost use Rattle.arc.specs.ArcPoint.{arc_point_at};
ghost use Rattle.nearest.specs.Turn.{Turn};
ghost use Rattle.nearest.specs.Near.{near};
ghost use Rattle.nearest.specs.Squared.{squared_dist};

use curves::{Arc, Point};
use shapes::Near;
use sine::SinCos;

pub fn squared_dist(p: Point, q: Point) -> f64
    ensures { result ≡ squared_dist p q }
{
    let dx = p.x - q.x;
    let dy = p.y - q.y;
    dx * dx + dy * dy
}

// The rotation's sine and cosine are worked out once, since a search asks for many points.
// What asks for no point of the arc by its angle takes the arc and the point bare: making a search works out a sine and a cosine.
#[derive(Clone, Copy)]
pub struct Search {
    pub a: Arc,
    pub turn: SinCos,
    pub p: Point,
    ghost turned: { Turn a turn },
}

impl Search {
    pub fn new(a: Arc, p: Point) -> Self
        ensures arc { result.a ≡ a }
        ensures point { result.p ≡ p }
    {
        Search {
            a,
            turn: sine::sin_cos(a.rotation),
            p,
        }
    }

    // The arc's point at the angle t.
    #[tactic(auto, unfolding(arc::specs::Ellipse::ellipse_point))]
    pub fn at(&self, t: f64) -> Point
        ensures { result ≡ arc_point_at self.now.a t }
    {
        arc::turn_point(self.a.center, self.a.radius, self.a.radius_b, self.turn, t)
    }

    pub fn near(&self, pos: Point) -> Near
        ensures { result ≡ near self.now.p pos }
    {
        Near {
            dist: segments::distance(self.p, pos),
            pos,
        }
    }

    pub fn squared_dist(&self, t: f64) -> f64
        ensures { result ≡ squared_dist self.now.p (arc_point_at self.now.a t) }
    {
        squared_dist(self.p, self.at(t))
    }
}
