// The distance of a point from a circular arc. `off` is the point as seen from the center.
// `off` goes beside the arc: three functions take both, and a struct would be made once and opened in each.
ghost use Rattle.std.specs.Prelude.{◌≡◌};
ghost use Rattle.nearest.specs.CircleDist.{on_ray, whole_dist, in_range, end_dist, part_dist};

use crate::search::Search;
use curves::{Arc, Point};
use shapes::Near;

// The circle's point in the direction of a point that is d from the center.
fn on_ray(a: Arc, off: Point, d: f64) -> Near
    ensures { result ≡ on_ray a off.x off.y d }
{
    Near {
        dist: scalar::abs(d - a.radius),
        pos: Point {
            x: a.center.x + a.radius * off.x / d,
            y: a.center.y + a.radius * off.y / d,
        },
    }
}

// A full circle.
pub fn whole_dist(a: Arc, off: Point) -> Near
    ensures { result ≡ whole_dist a off.x off.y }
{
    let d = root::norm(off.x, off.y);
    if d < 1e-12 {
        return Near {
            dist: a.radius,
            pos: Point {
                x: a.center.x + a.radius,
                y: a.center.y,
            },
        };
    }
    on_ray(a, off, d)
}

// Whether an angle is in the arc's range. There is no slack, and the span is brought into one turn.
fn in_range(a: Arc, angle: f64) -> bool
    ensures { result ≡ in_range a angle }
{
    if a.ccw {
        arc::norm_tau(angle - a.start) <= arc::norm_tau(a.end - a.start)
    } else {
        arc::norm_tau(a.start - angle) <= arc::norm_tau(a.start - a.end)
    }
}

// The end, where both ends are equally far. Both points come before both roots, so that the processor takes the roots at once.
fn end_dist(p: Point, a: Arc) -> Near
    ensures { result ≡ end_dist p a }
{
    let search = Search::new(a, p);
    let start_pos = search.at(a.start);
    let end_pos = search.at(a.end);
    let start = search.near(start_pos);
    let end = search.near(end_pos);
    if start.dist < end.dist { start } else { end }
}

// A partial arc.
pub fn part_dist(p: Point, a: Arc, off: Point) -> Near
    ensures { result ≡ part_dist p a off.x off.y }
{
    let angle = arctan::atan2(off.y, off.x);
    if in_range(a, angle) {
        let d = root::norm(off.x, off.y);
        if d < 1e-12 {
            let at = sine::sin_cos(angle);
            return Near {
                dist: a.radius,
                pos: Point {
                    x: a.center.x + a.radius * at.cos,
                    y: a.center.y + a.radius * at.sin,
                },
            };
        }
        return on_ray(a, off, d);
    }
    end_dist(p, a)
}
