// Points, tangents and lines: the library's answer goes to `out`, the refusal's number is given back.
ghost use Rattle.calls_points.specs.Answers.{ellipse_point_answer, ellipse_tangent_answer, arc_point_at_answer, arc_tangent_at_answer, arc_start_pos_answer, arc_end_pos_answer};
ghost use Rattle.calls_points.specs.Answers.{point_to_segment_dist_answer, project_onto_segment_answer, line_line_intersection_answer};
ghost use Rattle.curves.specs.At.{at};
ghost use Rattle.export_numbers.specs.Lent.{lent_arc};
ghost use Rattle.export_numbers.specs.Exported.{NumbersOut};

use curves::Point;
use export_numbers::write_answer;

pub fn arcs_ellipse_point(
    cx: f64,
    cy: f64,
    rx: f64,
    ry: f64,
    rot: f64,
    t: f64,
    out: &mut [f64],
) -> u32
    ensures { NumbersOut 2 (ellipse_point_answer (at cx cy) rx ry rot t) out.old result out.new }
{
    let told = calls_points::ellipse_point(Point { x: cx, y: cy }, rx, ry, rot, t);
    write_answer(told, out)
}

pub fn arcs_ellipse_tangent(rx: f64, ry: f64, rot: f64, t: f64, out: &mut [f64]) -> u32
    ensures { NumbersOut 2 (ellipse_tangent_answer rx ry rot t) out.old result out.new }
{
    write_answer(calls_points::ellipse_tangent(rx, ry, rot, t), out)
}

pub fn arcs_arc_point_at(a: &[f64], a_marks: u32, t: f64, out: &mut [f64]) -> u32
    ensures { NumbersOut 2 (arc_point_at_answer (lent_arc a.now a_marks) t) out.old result out.new }
{
    write_answer(
        calls_points::arc_point_at(export_numbers::arc(a, a_marks), t),
        out,
    )
}

pub fn arcs_arc_tangent_at(a: &[f64], a_marks: u32, t: f64, out: &mut [f64]) -> u32
    ensures { NumbersOut 2 (arc_tangent_at_answer (lent_arc a.now a_marks) t) out.old result out.new }
{
    write_answer(
        calls_points::arc_tangent_at(export_numbers::arc(a, a_marks), t),
        out,
    )
}

pub fn arcs_arc_start_pos(a: &[f64], a_marks: u32, out: &mut [f64]) -> u32
    ensures { NumbersOut 2 (arc_start_pos_answer (lent_arc a.now a_marks)) out.old result out.new }
{
    write_answer(
        calls_points::arc_start_pos(export_numbers::arc(a, a_marks)),
        out,
    )
}

pub fn arcs_arc_end_pos(a: &[f64], a_marks: u32, out: &mut [f64]) -> u32
    ensures { NumbersOut 2 (arc_end_pos_answer (lent_arc a.now a_marks)) out.old result out.new }
{
    write_answer(
        calls_points::arc_end_pos(export_numbers::arc(a, a_marks)),
        out,
    )
}

pub fn arcs_point_to_segment_dist(
    px: f64,
    py: f64,
    ax: f64,
    ay: f64,
    bx: f64,
    by: f64,
    out: &mut [f64],
) -> u32
    ensures { NumbersOut 1 (point_to_segment_dist_answer (at px py) (at ax ay) (at bx by)) out.old result out.new }
{
    let told = calls_points::point_to_segment_dist(
        Point { x: px, y: py },
        Point { x: ax, y: ay },
        Point { x: bx, y: by },
    );
    write_answer(told, out)
}

pub fn arcs_project_onto_segment(
    px: f64,
    py: f64,
    ax: f64,
    ay: f64,
    bx: f64,
    by: f64,
    out: &mut [f64],
) -> u32
    ensures { NumbersOut 2 (project_onto_segment_answer (at px py) (at ax ay) (at bx by)) out.old result out.new }
{
    let told = calls_points::project_onto_segment(
        Point { x: px, y: py },
        Point { x: ax, y: ay },
        Point { x: bx, y: by },
    );
    write_answer(told, out)
}

pub fn arcs_line_line_intersection(
    x1: f64,
    y1: f64,
    x2: f64,
    y2: f64,
    x3: f64,
    y3: f64,
    x4: f64,
    y4: f64,
    out: &mut [f64],
) -> u32
    ensures { NumbersOut 2 (line_line_intersection_answer (at x1 y1) (at x2 y2) (at x3 y3) (at x4 y4)) out.old result out.new }
{
    let told = calls_points::line_line_intersection(
        Point { x: x1, y: y1 },
        Point { x: x2, y: y2 },
        Point { x: x3, y: y3 },
        Point { x: x4, y: y4 },
    );
    write_answer(told, out)
}
