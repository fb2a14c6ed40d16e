// Points, tangents, spans and lines for C and Rust to link. Each export calls the function of `export_points` that has its name, and promises what that promises.
#![tactic(auto)]

ghost use Rattle.calls_points.specs.Answers.{ellipse_point_answer, ellipse_tangent_answer, arc_point_at_answer, arc_tangent_at_answer, arc_start_pos_answer, arc_end_pos_answer, point_to_segment_dist_answer, project_onto_segment_answer, line_line_intersection_answer, norm_tau_answer, arc_param_in_span_answer, arc_radii_answer, arc_theta_of_pos_answer, arc_param_at_point_answer};
ghost use Rattle.curves.specs.At.{at};
ghost use Rattle.export_numbers.specs.Lent.{lent_arc};
ghost use Rattle.export_numbers.specs.Exported.{NumbersOut};

#[unsafe(no_mangle)]
pub extern "C" fn arcs_ellipse_point(
    cx: f64,
    cy: f64,
    rx: f64,
    ry: f64,
    rot: f64,
    t: f64,
    out: &mut [f64],
) -> u32
    ensures { NumbersOut 2 (ellipse_point_answer (at cx cy) rx ry rot t) out.old result out.new }
{
    export_points::arcs_ellipse_point(cx, cy, rx, ry, rot, t, out)
}

#[unsafe(no_mangle)]
pub extern "C" fn arcs_ellipse_tangent(rx: f64, ry: f64, rot: f64, t: f64, out: &mut [f64]) -> u32
    ensures { NumbersOut 2 (ellipse_tangent_answer rx ry rot t) out.old result out.new }
{
    export_points::arcs_ellipse_tangent(rx, ry, rot, t, out)
}

#[unsafe(no_mangle)]
pub extern "C" fn arcs_arc_point_at(a: &[f64], a_marks: u32, t: f64, out: &mut [f64]) -> u32
    ensures { NumbersOut 2 (arc_point_at_answer (lent_arc a.now a_marks) t) out.old result out.new }
{
    export_points::arcs_arc_point_at(a, a_marks, t, out)
}

#[unsafe(no_mangle)]
pub extern "C" fn arcs_arc_tangent_at(a: &[f64], a_marks: u32, t: f64, out: &mut [f64]) -> u32
    ensures { NumbersOut 2 (arc_tangent_at_answer (lent_arc a.now a_marks) t) out.old result out.new }
{
    export_points::arcs_arc_tangent_at(a, a_marks, t, out)
}

#[unsafe(no_mangle)]
pub extern "C" fn arcs_arc_start_pos(a: &[f64], a_marks: u32, out: &mut [f64]) -> u32
    ensures { NumbersOut 2 (arc_start_pos_answer (lent_arc a.now a_marks)) out.old result out.new }
{
    export_points::arcs_arc_start_pos(a, a_marks, out)
}

#[unsafe(no_mangle)]
pub extern "C" fn arcs_arc_end_pos(a: &[f64], a_marks: u32, out: &mut [f64]) -> u32
    ensures { NumbersOut 2 (arc_end_pos_answer (lent_arc a.now a_marks)) out.old result out.new }
{
    export_points::arcs_arc_end_pos(a, a_marks, out)
}

#[unsafe(no_mangle)]
pub extern "C" fn arcs_point_to_segment_dist(
    px: f64,
    py: f64,
    ax: f64,
    ay: f64,
    bx: f64,
    by: f64,
    out: &mut [f64],
) -> u32
    ensures { NumbersOut 1 (point_to_segment_dist_answer (at px py) (at ax ay) (at bx by)) out.old result out.new }
{
    export_points::arcs_point_to_segment_dist(px, py, ax, ay, bx, by, out)
}

#[unsafe(no_mangle)]
pub extern "C" fn arcs_project_onto_segment(
    px: f64,
    py: f64,
    ax: f64,
    ay: f64,
    bx: f64,
    by: f64,
    out: &mut [f64],
) -> u32
    ensures { NumbersOut 2 (project_onto_segment_answer (at px py) (at ax ay) (at bx by)) out.old result out.new }
{
    export_points::arcs_project_onto_segment(px, py, ax, ay, bx, by, out)
}

#[unsafe(no_mangle)]
pub extern "C" fn arcs_line_line_intersection(
    x1: f64,
    y1: f64,
    x2: f64,
    y2: f64,
    x3: f64,
    y3: f64,
    x4: f64,
    y4: f64,
    out: &mut [f64],
) -> u32
    ensures { NumbersOut 2 (line_line_intersection_answer (at x1 y1) (at x2 y2) (at x3 y3) (at x4 y4)) out.old result out.new }
{
    export_points::arcs_line_line_intersection(x1, y1, x2, y2, x3, y3, x4, y4, out)
}

#[unsafe(no_mangle)]
pub extern "C" fn arcs_norm_tau(v: f64, out: &mut [f64]) -> u32
    ensures { NumbersOut 1 (norm_tau_answer v) out.old result out.new }
{
    export_points::arcs_norm_tau(v, out)
}

#[unsafe(no_mangle)]
pub extern "C" fn arcs_arc_param_in_span(
    a: &[f64],
    a_marks: u32,
    theta: f64,
    out: &mut [f64],
) -> u32
    ensures { NumbersOut 1 (arc_param_in_span_answer (lent_arc a.now a_marks) theta) out.old result out.new }
{
    export_points::arcs_arc_param_in_span(a, a_marks, theta, out)
}

#[unsafe(no_mangle)]
pub extern "C" fn arcs_arc_radii(a: &[f64], a_marks: u32, out: &mut [f64]) -> u32
    ensures { NumbersOut 2 (arc_radii_answer (lent_arc a.now a_marks)) out.old result out.new }
{
    export_points::arcs_arc_radii(a, a_marks, out)
}

#[unsafe(no_mangle)]
pub extern "C" fn arcs_arc_theta_of_pos(
    a: &[f64],
    a_marks: u32,
    px: f64,
    py: f64,
    out: &mut [f64],
) -> u32
    ensures { NumbersOut 1 (arc_theta_of_pos_answer (lent_arc a.now a_marks) (at px py)) out.old result out.new }
{
    export_points::arcs_arc_theta_of_pos(a, a_marks, px, py, out)
}

#[unsafe(no_mangle)]
pub extern "C" fn arcs_arc_param_at_point(
    a: &[f64],
    a_marks: u32,
    px: f64,
    py: f64,
    out: &mut [f64],
) -> u32
    ensures { NumbersOut 1 (arc_param_at_point_answer (lent_arc a.now a_marks) (at px py)) out.old result out.new }
{
    export_points::arcs_arc_param_at_point(a, a_marks, px, py, out)
}
