// Spans and parameters (part 3).
#![tactic(auto, using(checks::proofs::Answered::answered_accepted, checks::proofs::Answered::answered_refused, checks::proofs::Answered::withheld_accepted, checks::proofs::Answered::withheld_refused), unfolding(checks::specs::Given::tested, crate::specs::Answers::norm_tau_answer, crate::specs::Answers::arc_param_in_span_answer, crate::specs::Answers::arc_radii_answer, crate::specs::Answers::arc_theta_of_pos_answer, crate::specs::Answers::arc_param_at_point_answer))]

ghost use Rattle.std.specs.Prelude.{◌≡◌};
ghost use Rattle.checks.specs.Answer.{number_told, radii_told};
ghost use Rattle.calls_points.specs.Answers.{norm_tau_answer, arc_param_in_span_answer, arc_radii_answer, arc_theta_of_pos_answer, arc_param_at_point_answer};

use checks::{Faults, Refusal};
use curves::{Arc, Point, Radii};

pub fn norm_tau(v: f64) -> Result<f64, Refusal>
    ensures { number_told result ≡ norm_tau_answer v }
{
    Faults::none().angle(v).passed()?;
    Ok(arc::norm_tau(v))
}

pub fn arc_param_in_span(a: Arc, theta: f64) -> Result<f64, Refusal>
    ensures { number_told result ≡ arc_param_in_span_answer a theta }
{
    Faults::none().arc(a).angle(theta).passed()?;
    arc::arc_param_in_span(a, theta).ok_or(Refusal::OutsideSpan)
}

pub fn arc_radii(a: Arc) -> Result<Radii, Refusal>
    ensures { radii_told result ≡ arc_radii_answer a }
{
    Faults::none().arc(a).passed()?;
    Ok(arc::arc_radii(a))
}

pub fn arc_theta_of_pos(a: Arc, p: Point) -> Result<f64, Refusal>
    ensures { number_told result ≡ arc_theta_of_pos_answer a p }
{
    Faults::none().arc(a).point(p).passed()?;
    Ok(arc::arc_theta_of_pos(a, p))
}

pub fn arc_param_at_point(a: Arc, p: Point) -> Result<f64, Refusal>
    ensures { number_told result ≡ arc_param_at_point_answer a p }
{
    Faults::none().arc(a).point(p).passed()?;
    Ok(arc::arc_param_at_point(a, p))
}
