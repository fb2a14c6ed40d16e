// Arcs and circles from points (000): the conversion of an SVG arc, the arc through three points, and the circle with a tangent.
#![tactic(auto)]

mod center;
mod svg;
mod tangent;
mod three_points;

pub use center::svg_arc_to_center;
pub use tangent::circle_tangent_through;
pub use three_points::circumscribed_arc;
