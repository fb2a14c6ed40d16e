// Crossings for C and Rust to link: numbers and slices of numbers cross, and nothing else, since C links them. So an arc is a slice beside its marks, an answer goes to a lent slice, and a refusal is its number. The crate `export_crossings_c` exports them.
#![tactic(auto)]

mod closed;
mod counts;
mod crossings;

pub use closed::{arcs_hit, arcs_intersect_segment_arc, arcs_intersect_segments};
pub use crossings::{arcs_intersect, arcs_intersect_arcs};
