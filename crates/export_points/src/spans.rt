// Spans and parameters: the library's answer goes to `out`, the refusal's number is given back.
ghost use Rattle.calls_points.specs.Answers.{norm_tau_answer, arc_param_in_span_answer, arc_radii_answer, arc_theta_of_pos_answer, arc_param_at_point_answer};
ghost use Rattle.curves.specs.At.{at};
ghost use Rattle.export_numbers.specs.Lent.{lent_arc};
ghost use Rattle.export_numbers.specs.Exported.{NumbersOut};

use curves::Point;
use export_numbers::write_answer;

pub fn arcs_norm_tau(v: f64, out: &mut [f64]) -> u32
    ensures { NumbersOut 1 (norm_tau_answer v) out.old result out.new }
{
    write_answer(calls_points::norm_tau(v), out)
}

pub fn arcs_arc_param_in_span(a: &[f64], a_marks: u32, theta: f64, out: &mut [f64]) -> u32
    ensures { NumbersOut 1 (arc_param_in_span_answer (lent_arc a.now a_marks) theta) out.old result out.new }
{
    write_answer(
        calls_points::arc_param_in_span(export_numbers::arc(a, a_marks), theta),
        out,
    )
}

pub fn arcs_arc_radii(a: &[f64], a_marks: u32, out: &mut [f64]) -> u32
    ensures { NumbersOut 2 (arc_radii_answer (lent_arc a.now a_marks)) out.old result out.new }
{
    write_answer(
        calls_points::arc_radii(export_numbers::arc(a, a_marks)),
        out,
    )
}

pub fn arcs_arc_theta_of_pos(a: &[f64], a_marks: u32, px: f64, py: f64, out: &mut [f64]) -> u32
    ensures { NumbersOut 1 (arc_theta_of_pos_answer (lent_arc a.now a_marks) (at px py)) out.old result out.new }
{
    let told = calls_points::arc_theta_of_pos(
        export_numbers::arc(a, a_marks),
        Point { x: px, y: py },
    );
    write_answer(told, out)
}

pub fn arcs_arc_param_at_point(a: &[f64], a_marks: u32, px: f64, py: f64, out: &mut [f64]) -> u32
    ensures { NumbersOut 1 (arc_param_at_point_answer (lent_arc a.now a_marks) (at px py)) out.old result out.new }
{
    let told = calls_points::arc_param_at_point(
        export_numbers::arc(a, a_marks),
        Point { x: px, y: py },
    );
    write_answer(told, out)
}
