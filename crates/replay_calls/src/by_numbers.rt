// The calls that take numbers and no arc. The answer goes to `out`. Each function has the form that `asked::in_numbers` takes: a row, and where the numbers go.
use replay_rows::sample::Sample;

pub fn ellipse_point(s: &Sample, out: &mut [f64]) -> u32 {
    let [x, y, rx, ry, rot, t] = s.numbers::<6>(0);
    export_points::arcs_ellipse_point(x, y, rx, ry, rot, t, out)
}

pub fn ellipse_tangent(s: &Sample, out: &mut [f64]) -> u32 {
    let [rx, ry, rot, t] = s.numbers::<4>(0);
    export_points::arcs_ellipse_tangent(rx, ry, rot, t, out)
}

pub fn norm_tau(s: &Sample, out: &mut [f64]) -> u32 {
    let v = s.number(0);
    export_points::arcs_norm_tau(v, out)
}

pub fn point_to_segment_dist(s: &Sample, out: &mut [f64]) -> u32 {
    let [px, py, ax, ay, bx, by] = s.numbers::<6>(0);
    export_points::arcs_point_to_segment_dist(px, py, ax, ay, bx, by, out)
}

pub fn project_onto_segment(s: &Sample, out: &mut [f64]) -> u32 {
    let [px, py, ax, ay, bx, by] = s.numbers::<6>(0);
    export_points::arcs_project_onto_segment(px, py, ax, ay, bx, by, out)
}

pub fn line_line_intersection(s: &Sample, out: &mut [f64]) -> u32 {
    let [x1, y1, x2, y2, x3, y3, x4, y4] = s.numbers::<8>(0);
    export_points::arcs_line_line_intersection(x1, y1, x2, y2, x3, y3, x4, y4, out)
}

pub fn svg_arc_to_center(s: &Sample, out: &mut [f64]) -> u32 {
    let [x1, y1, x2, y2, rx, ry, rotation] = s.numbers::<7>(0);
    let large = s.whole(7);
    let sweep = s.whole(8);
    export_shapes::arcs_svg_arc_to_center(x1, y1, x2, y2, rx, ry, rotation, large, sweep, out)
}

pub fn circumscribed_arc(s: &Sample, out: &mut [f64]) -> u32 {
    let [x1, y1, x2, y2, x3, y3] = s.numbers::<6>(0);
    export_shapes::arcs_circumscribed_arc(x1, y1, x2, y2, x3, y3, out)
}

pub fn circle_tangent_through(s: &Sample, out: &mut [f64]) -> u32 {
    let [sx, sy, ex, ey, tx, ty] = s.numbers::<6>(0);
    export_shapes::arcs_circle_tangent_through(sx, sy, ex, ey, tx, ty, out)
}

pub fn fit_earc_tangent(s: &Sample, out: &mut [f64]) -> u32 {
    let [p1x, p1y, t1x, t1y, p2x, p2y, t2x, t2y, bulge] = s.numbers::<9>(0);
    export_shapes::arcs_fit_earc_tangent(p1x, p1y, t1x, t1y, p2x, p2y, t2x, t2y, bulge, out)
}
