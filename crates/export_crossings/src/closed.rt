// Crossings in closed form, and a single hit: the hits go to one lent room, the count to another. Whether the counts fit is asked by their number, `< 1` here as `< 6` for a hunt.
ghost use Rattle.hits.specs.Hit.{hit_part};
ghost use Rattle.curves.specs.At.{at};
ghost use Rattle.calls_crossings.specs.Answers.{segments_answer, segment_arc_answer};
ghost use Rattle.export_numbers.specs.Lent.{lent_arc};
ghost use Rattle.export_crossings.specs.Exported.{HitsOut, HitOut};

use crate::counts;
use curves::Point;
use export_numbers::SHORT;
use hits::{HIT, Lengths};

pub fn arcs_intersect_segments(
    ax1: f64,
    ay1: f64,
    ax2: f64,
    ay2: f64,
    bx1: f64,
    by1: f64,
    bx2: f64,
    by2: f64,
    room: &mut [f64],
    counts: &mut [u64],
) -> u32
    ensures { HitsOut (segments_answer (at ax1 ay1) (at ax2 ay2) (at bx1 by1) (at bx2 by2)) room.old counts.old result room.new counts.new }
{
    let a1 = Point { x: ax1, y: ay1 };
    let a2 = Point { x: ax2, y: ay2 };
    let b1 = Point { x: bx1, y: by1 };
    let b2 = Point { x: bx2, y: by2 };
    if counts.len() < 1 {
        let lent = Lengths { room: room.len() };
        return counts::short(calls_crossings::segments_refusal(a1, a2, b1, b2, lent));
    }
    counts::write_counts(
        calls_crossings::intersect_segments(a1, a2, b1, b2, room),
        counts,
    )
}

pub fn arcs_intersect_segment_arc(
    x1: f64,
    y1: f64,
    x2: f64,
    y2: f64,
    a: &[f64],
    a_marks: u32,
    room: &mut [f64],
    counts: &mut [u64],
) -> u32
    ensures { HitsOut (segment_arc_answer (at x1 y1) (at x2 y2) (lent_arc a.now a_marks)) room.old counts.old result room.new counts.new }
{
    let p1 = Point { x: x1, y: y1 };
    let p2 = Point { x: x2, y: y2 };
    let q = export_numbers::arc(a, a_marks);
    if counts.len() < 1 {
        let lent = Lengths { room: room.len() };
        return counts::short(calls_crossings::segment_arc_refusal(p1, p2, q, lent));
    }
    counts::write_counts(
        calls_crossings::intersect_segment_arc(p1, p2, q, room),
        counts,
    )
}

// The numbers of the hit i of so many to `out`, and to `counts` how many they are: 0 where there is no such hit.
pub fn arcs_hit(room: &[f64], count: usize, i: usize, out: &mut [f64], counts: &mut [u64]) -> u32
    ensures { HitOut (hit_part room.now count i) out.old counts.old result out.new counts.new }
{
    if out.len() < HIT {
        return SHORT;
    }
    if counts.len() < 1 {
        return SHORT;
    }
    let part = calls_crossings::hit(room, count, i);
    export_numbers::place(part, out);
    counts[0] = part.len() as u64;
    0
}
