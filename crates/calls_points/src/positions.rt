// Points, tangents, distances and lines (parts 2 and 4).
#![tactic(auto, using(checks::proofs::Answered::answered_accepted, checks::proofs::Answered::answered_refused), unfolding(checks::specs::Given::tested, crate::specs::Answers::ellipse_point_answer, crate::specs::Answers::ellipse_tangent_answer, crate::specs::Answers::arc_point_at_answer, crate::specs::Answers::arc_tangent_at_answer, crate::specs::Answers::arc_start_pos_answer, crate::specs::Answers::arc_end_pos_answer, crate::specs::Answers::point_to_segment_dist_answer, crate::specs::Answers::project_onto_segment_answer, crate::specs::Answers::line_line_intersection_answer))]

ghost use Rattle.std.specs.Prelude.{◌≡◌};
ghost use Rattle.checks.specs.Answer.{number_told, pair_told};
ghost use Rattle.calls_points.specs.Answers.{ellipse_point_answer, ellipse_tangent_answer, arc_point_at_answer, arc_tangent_at_answer, arc_start_pos_answer};
ghost use Rattle.calls_points.specs.Answers.{arc_end_pos_answer, point_to_segment_dist_answer, project_onto_segment_answer, line_line_intersection_answer};

use checks::{Faults, Refusal};
use curves::{Arc, Point};

pub fn ellipse_point(center: Point, rx: f64, ry: f64, rot: f64, t: f64) -> Result<Point, Refusal>
    ensures { pair_told result ≡ ellipse_point_answer center rx ry rot t }
{
    Faults::none()
        .point(center)
        .coordinate(rx)
        .coordinate(ry)
        .angle(rot)
        .angle(t)
        .passed()?;
    Ok(arc::ellipse_point(center, rx, ry, rot, t))
}

pub fn ellipse_tangent(rx: f64, ry: f64, rot: f64, t: f64) -> Result<Point, Refusal>
    ensures { pair_told result ≡ ellipse_tangent_answer rx ry rot t }
{
    Faults::none()
        .coordinate(rx)
        .coordinate(ry)
        .angle(rot)
        .angle(t)
        .passed()?;
    Ok(arc::ellipse_tangent(rx, ry, rot, t))
}

pub fn arc_point_at(a: Arc, t: f64) -> Result<Point, Refusal>
    ensures { pair_told result ≡ arc_point_at_answer a t }
{
    Faults::none().arc(a).angle(t).passed()?;
    Ok(arc::arc_point_at(a, t))
}

pub fn arc_tangent_at(a: Arc, t: f64) -> Result<Point, Refusal>
    ensures { pair_told result ≡ arc_tangent_at_answer a t }
{
    Faults::none().arc(a).angle(t).passed()?;
    Ok(arc::arc_tangent_at(a, t))
}

pub fn arc_start_pos(a: Arc) -> Result<Point, Refusal>
    ensures { pair_told result ≡ arc_start_pos_answer a }
{
    Faults::none().arc(a).passed()?;
    Ok(arc::arc_start_pos(a))
}

pub fn arc_end_pos(a: Arc) -> Result<Point, Refusal>
    ensures { pair_told result ≡ arc_end_pos_answer a }
{
    Faults::none().arc(a).passed()?;
    Ok(arc::arc_end_pos(a))
}

pub fn point_to_segment_dist(p: Point, a: Point, b: Point) -> Result<f64, Refusal>
    ensures { number_told result ≡ point_to_segment_dist_answer p a b }
{
    Faults::none().point(p).point(a).point(b).passed()?;
    Ok(segments::point_to_segment_dist(p, a, b))
}

pub fn project_onto_segment(p: Point, a: Point, b: Point) -> Result<Point, Refusal>
    ensures { pair_told result ≡ project_onto_segment_answer p a b }
{
    Faults::none().point(p).point(a).point(b).passed()?;
    Ok(segments::project_onto_segment(p, a, b))
}

pub fn line_line_intersection(p1: Point, p2: Point, p3: Point, p4: Point) -> Result<Point, Refusal>
    ensures { pair_told result ≡ line_line_intersection_answer p1 p2 p3 p4 }
{
    Faults::none()
        .point(p1)
        .point(p2)
        .point(p3)
        .point(p4)
        .passed()?;
    Ok(segments::line_line_intersection(p1, p2, p3, p4))
}
