// Crossings, and a single hit. The counts go to `counts`, the numbers of the hits to `room`. Each function has the form that `asked::in_room` takes: a row, its room and its counts.
use arrayvec::ArrayVec;
use replay_rows::sample::Sample;

pub fn intersect_segments(s: &Sample, room: &mut [f64], counts: &mut [u64]) -> u32 {
    let [x1, y1, x2, y2, x3, y3, x4, y4] = s.numbers::<8>(0);
    export_crossings::arcs_intersect_segments(x1, y1, x2, y2, x3, y3, x4, y4, room, counts)
}

pub fn intersect_segment_arc(s: &Sample, room: &mut [f64], counts: &mut [u64]) -> u32 {
    let [x1, y1, x2, y2] = s.numbers::<4>(0);
    let a = s.arc(4, s.lent.a);
    export_crossings::arcs_intersect_segment_arc(
        x1,
        y1,
        x2,
        y2,
        a.numbers.as_slice(),
        a.marks,
        room,
        counts,
    )
}

pub fn intersect_arcs(s: &Sample, room: &mut [f64], counts: &mut [u64]) -> u32 {
    let a = s.arc(0, s.lent.a);
    let b = s.arc(8, s.lent.b);
    export_crossings::arcs_intersect_arcs(
        a.numbers.as_slice(),
        a.marks,
        b.numbers.as_slice(),
        b.marks,
        s.whole(16),
        room,
        counts,
    )
}

pub fn intersect(s: &Sample, room: &mut [f64], counts: &mut [u64]) -> u32 {
    let a = s.arc(0, s.lent.a);
    let b = s.arc(8, s.lent.b);
    export_crossings::arcs_intersect(
        a.numbers.as_slice(),
        a.marks,
        b.numbers.as_slice(),
        b.marks,
        s.whole(16),
        room,
        counts,
    )
}

pub fn hit(s: &Sample, numbers: &mut [f64], counts: &mut [u64]) -> u32 {
    let mut written = ArrayVec::from(s.numbers::<12>(0));
    written.truncate(s.size(12));
    export_crossings::arcs_hit(written.as_slice(), s.size(13), s.size(14), numbers, counts)
}
