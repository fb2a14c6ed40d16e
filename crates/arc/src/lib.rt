// An arc's points and tangents (002), its span (000).
#![tactic(auto)]

mod ellipse;
mod span;

pub use ellipse::{
    arc_end_pos, arc_point_at, arc_start_pos, arc_tangent_at, ellipse_point, ellipse_tangent,
    turn_point,
};
pub use span::{
    arc_param_at_point, arc_param_in_span, arc_radii, arc_theta_of_pos, norm_tau, to_unit,
};
