// The point of an arc that is nearest to a point (000): its distance and its parameter.
#![tactic(auto)]

mod circle;
mod distance;
mod ellipse;
mod newton;
mod param;
mod samples;
mod search;
mod thirds;

pub use distance::point_to_arc_dist;
pub use param::nearest_arc_param;
