// Segments and lines (000): distance, projection and crossings, operation by operation.
#![tactic(auto)]

ghost use Rattle.std.specs.Prelude.{◌≡◌};
ghost use Rattle.segments.specs.Project.{distance, along, point_to_segment_dist, project_onto_segment};
ghost use Rattle.segments.specs.Lines.{line_line_intersection};
ghost use Rattle.segments.specs.Segments.{on_segment, intersect_segments};

use curves::Point;
use hits::CurveHit;

// The distance of two points.
#[tactic(auto, unfolding(crate::specs::Project::distance))]
pub fn distance(p: Point, q: Point) -> f64
    ensures { result ≡ distance p q }
{
    root::norm(p.x - q.x, p.y - q.y)
}

// The parameter of the point of a segment nearest to p, where len2 is the segment's length squared.
#[tactic(auto, unfolding(crate::specs::Project::along))]
fn along(p: Point, a: Point, dx: f64, dy: f64, len2: f64) -> f64
    ensures { result ≡ along p a dx dy len2 }
{
    scalar::clamp(((p.x - a.x) * dx + (p.y - a.y) * dy) / len2, 0.0, 1.0)
}

#[tactic(auto, unfolding(crate::specs::Project::project_onto_segment))]
pub fn project_onto_segment(p: Point, a: Point, b: Point) -> Point
    ensures { result ≡ project_onto_segment p a b }
{
    let dx = b.x - a.x;
    let dy = b.y - a.y;
    let len2 = dx * dx + dy * dy;
    if len2 < 1e-12 {
        return a;
    }
    let t = along(p, a, dx, dy, len2);
    Point {
        x: a.x + t * dx,
        y: a.y + t * dy,
    }
}

// The Rust works out the projection again; it is the same.
#[tactic(auto, unfolding(crate::specs::Project::point_to_segment_dist))]
pub fn point_to_segment_dist(p: Point, a: Point, b: Point) -> f64
    ensures { result ≡ point_to_segment_dist p a b }
{
    distance(p, project_onto_segment(p, a, b))
}

#[tactic(auto, unfolding(crate::specs::Lines::line_line_intersection))]
pub fn line_line_intersection(p1: Point, p2: Point, p3: Point, p4: Point) -> Point
    ensures { result ≡ line_line_intersection p1 p2 p3 p4 }
{
    let d1x = p2.x - p1.x;
    let d1y = p2.y - p1.y;
    let d2x = p4.x - p3.x;
    let d2y = p4.y - p3.y;
    let denom = d1x * d2y - d1y * d2x;
    if scalar::abs(denom) < 1e-12 {
        return Point {
            x: (p1.x + p3.x) / 2.0,
            y: (p1.y + p3.y) / 2.0,
        };
    }
    let t = ((p3.x - p1.x) * d2y - (p3.y - p1.y) * d2x) / denom;
    Point {
        x: p1.x + t * d1x,
        y: p1.y + t * d1y,
    }
}

// Whether a parameter lies on a segment, with 000's margin at both ends.
#[tactic(auto, unfolding(crate::specs::Segments::on_segment))]
pub fn on_segment(t: f64) -> bool
    ensures { result ≡ on_segment t }
{
    (-1e-9 <= t) & (t <= 1.0 + 1e-9)
}

#[tactic(auto, unfolding(crate::specs::Segments::intersect_segments))]
pub fn intersect_segments(a1: Point, a2: Point, b1: Point, b2: Point) -> Option<CurveHit>
    ensures { result ≡ intersect_segments a1 a2 b1 b2 }
{
    let d1x = a2.x - a1.x;
    let d1y = a2.y - a1.y;
    let d2x = b2.x - b1.x;
    let d2y = b2.y - b1.y;
    let denom = d1x * d2y - d1y * d2x;
    if scalar::abs(denom) < 1e-12 {
        return None;
    }
    let t_a = ((b1.x - a1.x) * d2y - (b1.y - a1.y) * d2x) / denom;
    let t_b = ((b1.x - a1.x) * d1y - (b1.y - a1.y) * d1x) / denom;
    if !on_segment(t_a) || !on_segment(t_b) {
        return None;
    }
    let pos = Point {
        x: a1.x + t_a * d1x,
        y: a1.y + t_a * d1y,
    };
    Some(hits::hit_of(
        scalar::clamp(t_a, 0.0, 1.0),
        scalar::clamp(t_b, 0.0, 1.0),
        pos,
    ))
}
