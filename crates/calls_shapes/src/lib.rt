// The calls of parts 7 to 9: each takes any number, checks its own, and refuses by document 01's number.
#![tactic(auto)]

mod calls;

pub use calls::{
    circle_tangent_through, circumscribed_arc, fit_earc_tangent, nearest_arc_param,
    point_to_arc_dist, svg_arc_to_center,
};
