// Crossings, their hits and counts, for C and Rust to link. Each export calls the function of `export_crossings` that has its name, and promises what that promises.
#![tactic(auto)]

ghost use Rattle.hits.specs.Hit.{hit_part};
ghost use Rattle.curves.specs.At.{at};
ghost use Rattle.calls_crossings.specs.Answers.{segments_answer, segment_arc_answer, arcs_answer};
ghost use Rattle.export_numbers.specs.Lent.{lent_arc, lent_curve};
ghost use Rattle.export_crossings.specs.Exported.{HitsOut, HitOut};
ghost use Rattle.calls_curves.specs.Curves.{curves_answer};

#[unsafe(no_mangle)]
pub extern "C" fn arcs_intersect_segments(
    ax1: f64,
    ay1: f64,
    ax2: f64,
    ay2: f64,
    bx1: f64,
    by1: f64,
    bx2: f64,
    by2: f64,
    room: &mut [f64],
    counts: &mut [u64],
) -> u32
    ensures { HitsOut (segments_answer (at ax1 ay1) (at ax2 ay2) (at bx1 by1) (at bx2 by2)) room.old counts.old result room.new counts.new }
{
    export_crossings::arcs_intersect_segments(ax1, ay1, ax2, ay2, bx1, by1, bx2, by2, room, counts)
}

#[unsafe(no_mangle)]
pub extern "C" fn arcs_intersect_segment_arc(
    x1: f64,
    y1: f64,
    x2: f64,
    y2: f64,
    a: &[f64],
    a_marks: u32,
    room: &mut [f64],
    counts: &mut [u64],
) -> u32
    ensures { HitsOut (segment_arc_answer (at x1 y1) (at x2 y2) (lent_arc a.now a_marks)) room.old counts.old result room.new counts.new }
{
    export_crossings::arcs_intersect_segment_arc(x1, y1, x2, y2, a, a_marks, room, counts)
}

// The numbers of the hit i of so many to `out`, and to `counts` how many they are: 0 where there is no such hit.
#[unsafe(no_mangle)]
pub extern "C" fn arcs_hit(
    room: &[f64],
    count: usize,
    i: usize,
    out: &mut [f64],
    counts: &mut [u64],
) -> u32
    ensures { HitOut (hit_part room.now count i) out.old counts.old result out.new counts.new }
{
    export_crossings::arcs_hit(room, count, i, out, counts)
}

// Hits, brackets, the brackets outside a, outside b and double, and the evaluations go to `counts`.
#[unsafe(no_mangle)]
pub extern "C" fn arcs_intersect_arcs(
    a: &[f64],
    a_marks: u32,
    b: &[f64],
    b_marks: u32,
    depth: u32,
    room: &mut [f64],
    counts: &mut [u64],
) -> u32
    ensures { HitsOut (arcs_answer (lent_arc a.now a_marks) (lent_arc b.now b_marks) depth)
        room.old counts.old result room.new counts.new }
{
    export_crossings::arcs_intersect_arcs(a, a_marks, b, b_marks, depth, room, counts)
}

// The same counts; all but the hits are 0 where nothing is sampled.
#[unsafe(no_mangle)]
pub extern "C" fn arcs_intersect(
    a: &[f64],
    a_marks: u32,
    b: &[f64],
    b_marks: u32,
    depth: u32,
    room: &mut [f64],
    counts: &mut [u64],
) -> u32
    ensures { HitsOut (curves_answer (lent_curve a.now a_marks) (lent_curve b.now b_marks) depth)
        room.old counts.old result room.new counts.new }
{
    export_crossings::arcs_intersect(a, a_marks, b, b_marks, depth, room, counts)
}
