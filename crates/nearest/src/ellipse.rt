// The distance of a point from an ellipse's arc: samples, Newton's steps, the two ends.
ghost use Rattle.std.specs.Prelude.{◌≡◌};
ghost use Rattle.nearest.specs.EllipseDist.{nearest_of, span, point_to_ellipse_dist};

use crate::search::Search;
use crate::thirds::Stretch;
use curves::{Arc, Point};
use scalar::TAU;
use shapes::Near;

// An end is taken only where it is strictly nearer.
fn nearest_of(start: Near, end: Near, found: Near) -> Near
    ensures { result ≡ nearest_of start end found }
{
    if start.dist < found.dist && start.dist < end.dist {
        start
    } else if end.dist < found.dist {
        end
    } else {
        found
    }
}

// 000 has TAU itself here, where a hunt's span is start + TAU - start: they round otherwise.
fn span(a: Arc) -> f64
    ensures { result ≡ span a }
{
    if a.closed { TAU } else { a.end - a.start }
}

pub fn point_to_ellipse_dist(p: Point, a: Arc) -> Near
    ensures { result ≡ point_to_ellipse_dist p a }
{
    let search = Search::new(a, p);
    let span = span(a);
    let within = Stretch::between(a.start, a.start + span);
    let t = search.newton(within, search.best_of(span, 64).t);
    let start = search.at(a.start);
    let end = search.at(a.end);
    let found = search.at(t);
    nearest_of(search.near(start), search.near(end), search.near(found))
}
