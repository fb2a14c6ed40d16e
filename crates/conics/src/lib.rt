// Conics in the plane: the lines that span a pencil, the conic of the pencil through a point, its axes.
#![tactic(auto)]

pub mod axes;
pub mod conic;
pub mod lines;
