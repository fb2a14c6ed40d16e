// Distances, nearest parameters, arcs and circles from points for C and Rust to link. Each export calls the function of `export_shapes` that has its name, and promises what that promises.
#![tactic(auto)]

ghost use Rattle.std.specs.Prelude.{not, eqb};
ghost use Rattle.calls_shapes.specs.Answers.{point_to_arc_dist_answer, nearest_arc_param_answer, svg_arc_to_center_answer, circumscribed_arc_answer, circle_tangent_through_answer, fit_earc_tangent_answer};
ghost use Rattle.curves.specs.At.{at};
ghost use Rattle.export_numbers.specs.Lent.{lent_arc};
ghost use Rattle.export_numbers.specs.Exported.{NumbersOut};

#[unsafe(no_mangle)]
pub extern "C" fn arcs_point_to_arc_dist(
    px: f64,
    py: f64,
    a: &[f64],
    a_marks: u32,
    out: &mut [f64],
) -> u32
    ensures { NumbersOut 3 (point_to_arc_dist_answer (at px py) (lent_arc a.now a_marks)) out.old result out.new }
{
    export_shapes::arcs_point_to_arc_dist(px, py, a, a_marks, out)
}

#[unsafe(no_mangle)]
pub extern "C" fn arcs_nearest_arc_param(
    a: &[f64],
    a_marks: u32,
    px: f64,
    py: f64,
    out: &mut [f64],
) -> u32
    ensures { NumbersOut 1 (nearest_arc_param_answer (lent_arc a.now a_marks) (at px py)) out.old result out.new }
{
    export_shapes::arcs_nearest_arc_param(a, a_marks, px, py, out)
}

// A flag is set where it is not 0.
#[unsafe(no_mangle)]
pub extern "C" fn arcs_svg_arc_to_center(
    x1: f64,
    y1: f64,
    x2: f64,
    y2: f64,
    rx: f64,
    ry: f64,
    rotation: f64,
    large_arc: u32,
    sweep: u32,
    out: &mut [f64],
) -> u32
    ensures { NumbersOut 6 (svg_arc_to_center_answer (at x1 y1) (at x2 y2) rx ry rotation (not (eqb large_arc 0)) (not (eqb sweep 0))) out.old result out.new }
{
    export_shapes::arcs_svg_arc_to_center(x1, y1, x2, y2, rx, ry, rotation, large_arc, sweep, out)
}

#[unsafe(no_mangle)]
pub extern "C" fn arcs_circumscribed_arc(
    x1: f64,
    y1: f64,
    x2: f64,
    y2: f64,
    x3: f64,
    y3: f64,
    out: &mut [f64],
) -> u32
    ensures { NumbersOut 6 (circumscribed_arc_answer (at x1 y1) (at x2 y2) (at x3 y3)) out.old result out.new }
{
    export_shapes::arcs_circumscribed_arc(x1, y1, x2, y2, x3, y3, out)
}

// (tx, ty) is a direction.
#[unsafe(no_mangle)]
pub extern "C" fn arcs_circle_tangent_through(
    sx: f64,
    sy: f64,
    ex: f64,
    ey: f64,
    tx: f64,
    ty: f64,
    out: &mut [f64],
) -> u32
    ensures { NumbersOut 3 (circle_tangent_through_answer (at sx sy) (at ex ey) (at tx ty)) out.old result out.new }
{
    export_shapes::arcs_circle_tangent_through(sx, sy, ex, ey, tx, ty, out)
}

// (tx1, ty1) and (tx2, ty2) are directions.
#[unsafe(no_mangle)]
pub extern "C" fn arcs_fit_earc_tangent(
    x1: f64,
    y1: f64,
    tx1: f64,
    ty1: f64,
    x2: f64,
    y2: f64,
    tx2: f64,
    ty2: f64,
    bulge: f64,
    out: &mut [f64],
) -> u32
    ensures { NumbersOut 8 (fit_earc_tangent_answer (at x1 y1) (at tx1 ty1) (at x2 y2) (at tx2 ty2) bulge) out.old result out.new }
{
    export_shapes::arcs_fit_earc_tangent(x1, y1, tx1, ty1, x2, y2, tx2, ty2, bulge, out)
}
