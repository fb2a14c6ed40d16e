// The calls that take one arc. The answer goes to `out`. Each function has the form that `asked::in_numbers` takes: a row, and where the numbers go.
use replay_rows::sample::Sample;

pub fn arc_point_at(s: &Sample, out: &mut [f64]) -> u32 {
    let a = s.arc(0, s.lent.a);
    let t = s.number(8);
    export_points::arcs_arc_point_at(a.numbers.as_slice(), a.marks, t, out)
}

pub fn arc_tangent_at(s: &Sample, out: &mut [f64]) -> u32 {
    let a = s.arc(0, s.lent.a);
    let t = s.number(8);
    export_points::arcs_arc_tangent_at(a.numbers.as_slice(), a.marks, t, out)
}

pub fn arc_start_pos(s: &Sample, out: &mut [f64]) -> u32 {
    let a = s.arc(0, s.lent.a);
    export_points::arcs_arc_start_pos(a.numbers.as_slice(), a.marks, out)
}

pub fn arc_end_pos(s: &Sample, out: &mut [f64]) -> u32 {
    let a = s.arc(0, s.lent.a);
    export_points::arcs_arc_end_pos(a.numbers.as_slice(), a.marks, out)
}

pub fn arc_param_in_span(s: &Sample, out: &mut [f64]) -> u32 {
    let a = s.arc(0, s.lent.a);
    let theta = s.number(8);
    export_points::arcs_arc_param_in_span(a.numbers.as_slice(), a.marks, theta, out)
}

pub fn arc_radii(s: &Sample, out: &mut [f64]) -> u32 {
    let a = s.arc(0, s.lent.a);
    export_points::arcs_arc_radii(a.numbers.as_slice(), a.marks, out)
}

pub fn arc_theta_of_pos(s: &Sample, out: &mut [f64]) -> u32 {
    let a = s.arc(0, s.lent.a);
    let [x, y] = s.numbers::<2>(8);
    export_points::arcs_arc_theta_of_pos(a.numbers.as_slice(), a.marks, x, y, out)
}

pub fn arc_param_at_point(s: &Sample, out: &mut [f64]) -> u32 {
    let a = s.arc(0, s.lent.a);
    let [x, y] = s.numbers::<2>(8);
    export_points::arcs_arc_param_at_point(a.numbers.as_slice(), a.marks, x, y, out)
}

// The only one whose position comes before the arc.
pub fn point_to_arc_dist(s: &Sample, out: &mut [f64]) -> u32 {
    let [x, y] = s.numbers::<2>(0);
    let a = s.arc(2, s.lent.a);
    export_shapes::arcs_point_to_arc_dist(x, y, a.numbers.as_slice(), a.marks, out)
}

pub fn nearest_arc_param(s: &Sample, out: &mut [f64]) -> u32 {
    let a = s.arc(0, s.lent.a);
    let [x, y] = s.numbers::<2>(8);
    export_shapes::arcs_nearest_arc_param(a.numbers.as_slice(), a.marks, x, y, out)
}
