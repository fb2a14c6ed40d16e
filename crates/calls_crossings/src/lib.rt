// The calls of parts 4 to 6, whose hits go to a lent room: each takes any number, checks its own, and refuses by document 01's number. A call's refusal can be asked without a room.
// `closed`, `pair` and `pair_hits` are no calls: they take what is tested, `calls_curves` shares them, and `arcs` does not pass them on.
#![tactic(auto)]

mod crossings;

pub use crossings::{
    CLOSED_HITS, SEGMENTS_HITS, arcs_refusal, closed, hit, intersect_arcs, intersect_segment_arc,
    intersect_segments, pair, pair_hits, segment_arc_refusal, segments_refusal,
};
