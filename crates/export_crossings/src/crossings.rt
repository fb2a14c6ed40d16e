// Crossings: the hits go to one lent room, the counts to another.
ghost use Rattle.calls_crossings.specs.Answers.{arcs_answer};
ghost use Rattle.calls_curves.specs.Curves.{curves_answer};
ghost use Rattle.export_numbers.specs.Lent.{lent_arc, lent_curve};
ghost use Rattle.export_crossings.specs.Exported.{HitsOut};

use crate::counts;
use hits::Lengths;

// Hits, brackets, the brackets outside a, outside b and double, and the evaluations go to `counts`.
pub fn arcs_intersect_arcs(
    a: &[f64],
    a_marks: u32,
    b: &[f64],
    b_marks: u32,
    depth: u32,
    room: &mut [f64],
    counts: &mut [u64],
) -> u32
    ensures { HitsOut (arcs_answer (lent_arc a.now a_marks) (lent_arc b.now b_marks) depth)
        room.old counts.old result room.new counts.new }
{
    let p = export_numbers::arc(a, a_marks);
    let q = export_numbers::arc(b, b_marks);
    if counts.len() < 6 {
        let lent = Lengths { room: room.len() };
        return counts::short(calls_crossings::arcs_refusal(p, q, depth, lent));
    }
    counts::write_counts(calls_crossings::intersect_arcs(p, q, depth, room), counts)
}

// The same counts; all but the hits are 0 where nothing is sampled.
pub fn arcs_intersect(
    a: &[f64],
    a_marks: u32,
    b: &[f64],
    b_marks: u32,
    depth: u32,
    room: &mut [f64],
    counts: &mut [u64],
) -> u32
    ensures { HitsOut (curves_answer (lent_curve a.now a_marks) (lent_curve b.now b_marks) depth)
        room.old counts.old result room.new counts.new }
{
    let p = export_numbers::curve(a, a_marks);
    let q = export_numbers::curve(b, b_marks);
    if counts.len() < 6 {
        let lent = Lengths { room: room.len() };
        return counts::short(calls_curves::intersect_refusal(p, q, depth, lent));
    }
    counts::write_counts(calls_curves::intersect(p, q, depth, room), counts)
}
