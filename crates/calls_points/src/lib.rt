// The calls of parts 2 to 4 that give back one number or two: each takes any number, checks its own, and refuses by document 01's number.
#![tactic(auto)]

mod positions;
mod spans;

pub use positions::{
    arc_end_pos, arc_point_at, arc_start_pos, arc_tangent_at, ellipse_point, ellipse_tangent,
    line_line_intersection, point_to_segment_dist, project_onto_segment,
};
pub use spans::{arc_param_at_point, arc_param_in_span, arc_radii, arc_theta_of_pos, norm_tau};
