// Distances to arcs and nearest parameters, arcs and circles from points: the library's answer goes to `out`, the refusal's number is given back.
ghost use Rattle.std.specs.Prelude.{not, eqb};
ghost use Rattle.calls_shapes.specs.Answers.{point_to_arc_dist_answer, nearest_arc_param_answer, svg_arc_to_center_answer, circumscribed_arc_answer, circle_tangent_through_answer, fit_earc_tangent_answer};
ghost use Rattle.curves.specs.At.{at};
ghost use Rattle.export_numbers.specs.Lent.{lent_arc};
ghost use Rattle.export_numbers.specs.Exported.{NumbersOut};

use curves::Point;
use export_numbers::write_answer;

pub fn arcs_point_to_arc_dist(px: f64, py: f64, a: &[f64], a_marks: u32, out: &mut [f64]) -> u32
    ensures { NumbersOut 3 (point_to_arc_dist_answer (at px py) (lent_arc a.now a_marks)) out.old result out.new }
{
    let told = calls_shapes::point_to_arc_dist(
        Point { x: px, y: py },
        export_numbers::arc(a, a_marks),
    );
    write_answer(told, out)
}

pub fn arcs_nearest_arc_param(a: &[f64], a_marks: u32, px: f64, py: f64, out: &mut [f64]) -> u32
    ensures { NumbersOut 1 (nearest_arc_param_answer (lent_arc a.now a_marks) (at px py)) out.old result out.new }
{
    let told = calls_shapes::nearest_arc_param(
        export_numbers::arc(a, a_marks),
        Point { x: px, y: py },
    );
    write_answer(told, out)
}

// A flag is set where it is not 0.
pub fn arcs_svg_arc_to_center(
    x1: f64,
    y1: f64,
    x2: f64,
    y2: f64,
    rx: f64,
    ry: f64,
    rotation: f64,
    large_arc: u32,
    sweep: u32,
    out: &mut [f64],
) -> u32
    ensures { NumbersOut 6 (svg_arc_to_center_answer (at x1 y1) (at x2 y2) rx ry rotation (not (eqb large_arc 0)) (not (eqb sweep 0))) out.old result out.new }
{
    let told = calls_shapes::svg_arc_to_center(
        Point { x: x1, y: y1 },
        Point { x: x2, y: y2 },
        rx,
        ry,
        rotation,
        large_arc != 0,
        sweep != 0,
    );
    write_answer(told, out)
}

pub fn arcs_circumscribed_arc(
    x1: f64,
    y1: f64,
    x2: f64,
    y2: f64,
    x3: f64,
    y3: f64,
    out: &mut [f64],
) -> u32
    ensures { NumbersOut 6 (circumscribed_arc_answer (at x1 y1) (at x2 y2) (at x3 y3)) out.old result out.new }
{
    let told = calls_shapes::circumscribed_arc(
        Point { x: x1, y: y1 },
        Point { x: x2, y: y2 },
        Point { x: x3, y: y3 },
    );
    write_answer(told, out)
}

// (tx, ty) is a direction.
pub fn arcs_circle_tangent_through(
    sx: f64,
    sy: f64,
    ex: f64,
    ey: f64,
    tx: f64,
    ty: f64,
    out: &mut [f64],
) -> u32
    ensures { NumbersOut 3 (circle_tangent_through_answer (at sx sy) (at ex ey) (at tx ty)) out.old result out.new }
{
    let told = calls_shapes::circle_tangent_through(
        Point { x: sx, y: sy },
        Point { x: ex, y: ey },
        Point { x: tx, y: ty },
    );
    write_answer(told, out)
}

// (tx1, ty1) and (tx2, ty2) are directions.
pub fn arcs_fit_earc_tangent(
    x1: f64,
    y1: f64,
    tx1: f64,
    ty1: f64,
    x2: f64,
    y2: f64,
    tx2: f64,
    ty2: f64,
    bulge: f64,
    out: &mut [f64],
) -> u32
    ensures { NumbersOut 8 (fit_earc_tangent_answer (at x1 y1) (at tx1 ty1) (at x2 y2) (at tx2 ty2) bulge) out.old result out.new }
{
    let told = calls_shapes::fit_earc_tangent(
        Point { x: x1, y: y1 },
        Point { x: tx1, y: ty1 },
        Point { x: x2, y: y2 },
        Point { x: tx2, y: ty2 },
        bulge,
    );
    write_answer(told, out)
}
