// The public library, with the types and constants that its calls speak in. Every call takes any number, checks its own, and refuses by document 01's number.
// The refusal of a call with a room can be asked without one. The routines of part 1, those of `scalar`, `root` and the angles, and `hit` refuse nothing.
// The sources of a crate above need no name but `arcs`. Its line of crates.txt has also the crates that declare the types it uses, as `rt` asks: sine, curves, shapes, hits, checks.
#![tactic(auto)]

pub use arccos::acos;
pub use arctan::atan2;
pub use calls_crossings::{
    CLOSED_HITS, SEGMENTS_HITS, arcs_refusal, hit, intersect_arcs, intersect_segment_arc,
    intersect_segments, segment_arc_refusal, segments_refusal,
};
pub use calls_curves::{intersect, intersect_refusal};
pub use calls_points::{
    arc_end_pos, arc_param_at_point, arc_param_in_span, arc_point_at, arc_radii, arc_start_pos,
    arc_tangent_at, arc_theta_of_pos, ellipse_point, ellipse_tangent, line_line_intersection,
    norm_tau, point_to_segment_dist, project_onto_segment,
};
pub use calls_shapes::{
    circle_tangent_through, circumscribed_arc, fit_earc_tangent, nearest_arc_param,
    point_to_arc_dist, svg_arc_to_center,
};
pub use checks::{DEEPEST, Refusal};
pub use curves::{Arc, Curve, Point, Radii};
pub use hits::{HIT, Lengths, Tally};
pub use root::sqrt;
pub use scalar::{FRAC_PI_2, PI, TAU, abs, clamp, max, min};
pub use shapes::{Circle, Circumscribed, Converted, Fitted, Near};
pub use sine::{SinCos, cos, sin, sin_cos};

// How many hits a room must hold at depth 0 where an ellipse takes part in a pair of arcs. Each depth more asks for twice as many.
pub const HUNT_HITS: usize = 256;
