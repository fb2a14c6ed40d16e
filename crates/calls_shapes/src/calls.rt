// Distances, nearest parameters, arcs and circles from points, the conic fit (parts 7 to 9).
#![tactic(auto, using(checks::proofs::Answered::answered_accepted, checks::proofs::Answered::answered_refused, checks::proofs::Answered::withheld_accepted, checks::proofs::Answered::withheld_refused), unfolding(checks::specs::Given::tested, crate::specs::Answers::point_to_arc_dist_answer, crate::specs::Answers::nearest_arc_param_answer, crate::specs::Answers::svg_arc_to_center_answer, crate::specs::Answers::circumscribed_arc_answer, crate::specs::Answers::circle_tangent_through_answer, crate::specs::Answers::fit_earc_tangent_answer))]

ghost use Rattle.std.specs.Prelude.{◌≡◌};
ghost use Rattle.checks.specs.Answer.{number_told};
ghost use Rattle.calls_answers.specs.Shape.{distance_told, center_told, through_told, tangent_told, fitted_told};
ghost use Rattle.calls_shapes.specs.Answers.{point_to_arc_dist_answer, nearest_arc_param_answer, svg_arc_to_center_answer, circumscribed_arc_answer, circle_tangent_through_answer, fit_earc_tangent_answer};

use checks::{Faults, Refusal};
use curves::{Arc, Point};
use shapes::{Circle, Circumscribed, Converted, Fitted, Near};

pub fn point_to_arc_dist(p: Point, a: Arc) -> Result<Near, Refusal>
    ensures { distance_told result ≡ point_to_arc_dist_answer p a }
{
    Faults::none().point(p).arc(a).passed()?;
    Ok(nearest::point_to_arc_dist(p, a))
}

pub fn nearest_arc_param(a: Arc, p: Point) -> Result<f64, Refusal>
    ensures { number_told result ≡ nearest_arc_param_answer a p }
{
    Faults::none().arc(a).point(p).passed()?;
    Ok(nearest::nearest_arc_param(a, p))
}

pub fn svg_arc_to_center(
    p1: Point,
    p2: Point,
    rx: f64,
    ry: f64,
    rotation: f64,
    large_arc: bool,
    sweep: bool,
) -> Result<Converted, Refusal>
    ensures { center_told result ≡ svg_arc_to_center_answer p1 p2 rx ry rotation large_arc sweep }
{
    Faults::none()
        .point(p1)
        .point(p2)
        .coordinate(rx)
        .coordinate(ry)
        .angle(rotation)
        .passed()?;
    construct::svg_arc_to_center(p1, p2, rx, ry, rotation, large_arc, sweep).ok_or(
        Refusal::Degenerate,
    )
}

pub fn circumscribed_arc(p1: Point, p2: Point, p3: Point) -> Result<Circumscribed, Refusal>
    ensures { through_told result ≡ circumscribed_arc_answer p1 p2 p3 }
{
    Faults::none().point(p1).point(p2).point(p3).passed()?;
    construct::circumscribed_arc(p1, p2, p3).ok_or(Refusal::Degenerate)
}

// t is a direction.
pub fn circle_tangent_through(s: Point, e: Point, t: Point) -> Result<Circle, Refusal>
    ensures { tangent_told result ≡ circle_tangent_through_answer s e t }
{
    Faults::none().point(s).point(e).point(t).passed()?;
    construct::circle_tangent_through(s, e, t).ok_or(Refusal::Degenerate)
}

// t1 and t2 are directions.
pub fn fit_earc_tangent(
    p1: Point,
    t1: Point,
    p2: Point,
    t2: Point,
    bulge: f64,
) -> Result<Fitted, Refusal>
    ensures { fitted_told result ≡ fit_earc_tangent_answer p1 t1 p2 t2 bulge }
{
    Faults::none()
        .point(p1)
        .point(t1)
        .point(p2)
        .point(t2)
        .coordinate(bulge)
        .passed()?;
    earc_fit::fit_earc_tangent(p1, t1, p2, t2, bulge).ok_or(Refusal::Degenerate)
}
