// The in-span angle of the point of an arc nearest to a point.
ghost use Rattle.std.specs.Prelude.{◌≡◌};
ghost use Rattle.nearest.specs.ArcParam.{end_param, on_circle, last_angle, on_ellipse, nearest_arc_param};

use crate::search::Search;
use crate::thirds::Stretch;
use curves::{Arc, Point};
use scalar::TAU;

// The start, where both ends are equally far.
fn end_param(arc: Arc, p: Point) -> f64
    ensures { result ≡ end_param arc p }
{
    let search = Search::new(arc, p);
    let ds = search.squared_dist(arc.start);
    let de = search.squared_dist(arc.end);
    if ds <= de { arc.start } else { arc.end }
}

#[tactic(auto, unfolding(crate::specs::ArcParam::on_circle))]
fn on_circle(arc: Arc, p: Point) -> f64
    ensures { result ≡ on_circle arc p }
{
    let theta = arctan::atan2(p.y - arc.center.y, p.x - arc.center.x);
    arc::arc_param_in_span(arc, theta).unwrap_or_else(|| end_param(arc, p))
}

fn last_angle(arc: Arc) -> f64
    ensures { result ≡ last_angle arc }
{
    if arc.closed { arc.start + TAU } else { arc.end }
}

fn on_ellipse(arc: Arc, p: Point) -> f64
    ensures { result ≡ on_ellipse arc p }
{
    let sa = arc.start;
    let ea = last_angle(arc);
    let n = 128;
    let search = Search::new(arc, p);
    let best = search.best_of(ea - sa, n);
    let cell = scalar::abs(ea - sa) / f64::from(n);
    let s = search.thirds(Stretch {
        lo: best.t - cell,
        hi: best.t + cell,
    });
    Stretch::between(sa, ea).clamp(0.5 * (s.lo + s.hi))
}

pub fn nearest_arc_param(arc: Arc, p: Point) -> f64
    ensures { result ≡ nearest_arc_param arc p }
{
    if arc.is_ellipse {
        on_ellipse(arc, p)
    } else {
        on_circle(arc, p)
    }
}
