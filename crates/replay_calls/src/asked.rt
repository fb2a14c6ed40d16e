// What the library answers to what a row asks.
ghost use Rattle.std.specs.Prelude.{◌≤◌};

use crate::{by_arc, by_numbers, crossings};
use hits::HIT;
use replay_rows::answer::{Answer, UNWRITTEN, UNWRITTEN_BITS};
use replay_rows::call::Call;
use replay_rows::lent;
use replay_rows::sample::Sample;

// How many numbers the longest room has: 2,048 hits. No pair needs more, so that a longer room changes nothing.
const LONGEST: usize = 2048 * HIT;

// An answer in numbers, of which none has more than eight.
fn in_numbers<F: FnOnce(&Sample, &mut [f64]) -> u32>(s: &Sample, ask: F) -> Answer
    requires { F.IsAlwaysCallable ask }
{
    let mut out = [UNWRITTEN; 8];
    let refusal = ask(s, lent::part_mut(&mut out, s.lent.out));
    Answer::new(refusal, &[], &out)
}

// An answer of so many counts and of hits in a room.
fn in_room<const LEN: usize, F: FnOnce(&Sample, &mut [f64], &mut [u64]) -> u32>(
    s: &Sample,
    lent: usize,
    head: usize,
    ask: F,
) -> Answer
    requires len { LEN ≤ LONGEST }
    requires head { head ≤ 6 }
    requires ask { F.IsAlwaysCallable ask }
{
    let mut room = [UNWRITTEN; LEN];
    let mut counts = [UNWRITTEN_BITS; 6];
    let refusal = ask(
        s,
        lent::part_mut(&mut room, lent),
        lent::part_mut(&mut counts, s.lent.counts),
    );
    Answer::new(refusal, &counts[..head], &room)
}

pub fn answer(s: &Sample) -> Answer {
    match s.call {
        Call::EllipsePoint => in_numbers(s, by_numbers::ellipse_point),
        Call::EllipseTangent => in_numbers(s, by_numbers::ellipse_tangent),
        Call::ArcPointAt => in_numbers(s, by_arc::arc_point_at),
        Call::ArcTangentAt => in_numbers(s, by_arc::arc_tangent_at),
        Call::ArcStartPos => in_numbers(s, by_arc::arc_start_pos),
        Call::ArcEndPos => in_numbers(s, by_arc::arc_end_pos),
        Call::NormTau => in_numbers(s, by_numbers::norm_tau),
        Call::ArcParamInSpan => in_numbers(s, by_arc::arc_param_in_span),
        Call::ArcRadii => in_numbers(s, by_arc::arc_radii),
        Call::ArcThetaOfPos => in_numbers(s, by_arc::arc_theta_of_pos),
        Call::ArcParamAtPoint => in_numbers(s, by_arc::arc_param_at_point),
        Call::PointToSegmentDist => in_numbers(s, by_numbers::point_to_segment_dist),
        Call::ProjectOntoSegment => in_numbers(s, by_numbers::project_onto_segment),
        Call::LineLineIntersection => in_numbers(s, by_numbers::line_line_intersection),
        Call::IntersectSegments => {
            in_room::<LONGEST, _>(s, s.room(), 1, crossings::intersect_segments)
        }
        Call::IntersectSegmentArc => {
            in_room::<LONGEST, _>(s, s.room(), 1, crossings::intersect_segment_arc)
        }
        Call::IntersectArcs => in_room::<LONGEST, _>(s, s.room(), 6, crossings::intersect_arcs),
        Call::Intersect => in_room::<LONGEST, _>(s, s.room(), 6, crossings::intersect),
        Call::Hit => in_room::<HIT, _>(s, s.lent.out, 1, crossings::hit),
        Call::PointToArcDist => in_numbers(s, by_arc::point_to_arc_dist),
        Call::NearestArcParam => in_numbers(s, by_arc::nearest_arc_param),
        Call::SvgArcToCenter => in_numbers(s, by_numbers::svg_arc_to_center),
        Call::CircumscribedArc => in_numbers(s, by_numbers::circumscribed_arc),
        Call::CircleTangentThrough => in_numbers(s, by_numbers::circle_tangent_through),
        Call::FitEarcTangent => in_numbers(s, by_numbers::fit_earc_tangent),
    }
}
