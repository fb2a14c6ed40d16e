// The distance of a point from an arc.
ghost use Rattle.std.specs.Prelude.{◌≡◌};
ghost use Rattle.nearest.specs.ArcDist.{point_to_arc_dist};

use crate::{circle, ellipse};
use curves::{Arc, Point};
use shapes::Near;

pub fn point_to_arc_dist(p: Point, a: Arc) -> Near
    ensures { result ≡ point_to_arc_dist p a }
{
    if a.is_ellipse {
        return ellipse::point_to_ellipse_dist(p, a);
    }
    let off = Point {
        x: p.x - a.center.x,
        y: p.y - a.center.y,
    };
    if a.closed {
        circle::whole_dist(a, off)
    } else {
        circle::part_dist(p, a, off)
    }
}
