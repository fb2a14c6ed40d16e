// Distances, nearest parameters, arcs and circles from points for C and Rust to link: numbers and slices of numbers cross, and nothing else, since C links them. So an arc is a slice beside its marks, an answer goes to a lent slice, and a refusal is its number. The crate `export_shapes_c` exports them.
#![tactic(auto)]

mod figures;

pub use figures::{
    arcs_circle_tangent_through, arcs_circumscribed_arc, arcs_fit_earc_tangent,
    arcs_nearest_arc_param, arcs_point_to_arc_dist, arcs_svg_arc_to_center,
};
