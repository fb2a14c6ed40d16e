// Points, tangents, spans and lines for C and Rust to link: numbers and slices of numbers cross, and nothing else, since C links them. So an arc is a slice beside its marks, an answer goes to a lent slice, and a refusal is its number. The crate `export_points_c` exports them.
#![tactic(auto)]

mod positions;
mod spans;

pub use positions::{
    arcs_arc_end_pos, arcs_arc_point_at, arcs_arc_start_pos, arcs_arc_tangent_at,
    arcs_ellipse_point, arcs_ellipse_tangent, arcs_line_line_intersection,
    arcs_point_to_segment_dist, arcs_project_onto_segment,
};
pub use spans::{
    arcs_arc_param_at_point, arcs_arc_param_in_span, arcs_arc_radii, arcs_arc_theta_of_pos,
    arcs_norm_tau,
};
