// The public calls by their numbers.
ghost use Rattle.std.specs.Prelude.{◌≡◌, ◌≤◌, ◌<◌};
ghost use Rattle.replay_rows.specs.Number.{number_of, IsNumbered};

// In the order of the table in bench/src/bin/samples.rs, which numbers them from 1.
#[derive(Clone, Copy, Debug, PartialEq, Eq)]
pub enum Call {
    EllipsePoint = 1,
    EllipseTangent,
    ArcPointAt,
    ArcTangentAt,
    ArcStartPos,
    ArcEndPos,
    NormTau,
    ArcParamInSpan,
    ArcRadii,
    ArcThetaOfPos,
    ArcParamAtPoint,
    PointToSegmentDist,
    ProjectOntoSegment,
    LineLineIntersection,
    IntersectSegments,
    IntersectSegmentArc,
    IntersectArcs,
    Intersect,
    Hit,
    PointToArcDist,
    NearestArcParam,
    SvgArcToCenter,
    CircumscribedArc,
    CircleTangentThrough,
    FitEarcTangent,
}

// A number that no call has.
#[derive(Clone, Copy, Debug, PartialEq, Eq)]
pub struct UnknownCall(pub u64);

impl TryFrom<u64> for Call {
    type Error = UnknownCall;

    ghost try_from_gives = { IsNumbered };

    fn try_from(number: u64) -> Result<Self, UnknownCall> {
        Ok(match number {
            1 => Call::EllipsePoint,
            2 => Call::EllipseTangent,
            3 => Call::ArcPointAt,
            4 => Call::ArcTangentAt,
            5 => Call::ArcStartPos,
            6 => Call::ArcEndPos,
            7 => Call::NormTau,
            8 => Call::ArcParamInSpan,
            9 => Call::ArcRadii,
            0xa => Call::ArcThetaOfPos,
            0xb => Call::ArcParamAtPoint,
            0xc => Call::PointToSegmentDist,
            0xd => Call::ProjectOntoSegment,
            0xe => Call::LineLineIntersection,
            0xf => Call::IntersectSegments,
            0x10 => Call::IntersectSegmentArc,
            0x11 => Call::IntersectArcs,
            0x12 => Call::Intersect,
            0x13 => Call::Hit,
            0x14 => Call::PointToArcDist,
            0x15 => Call::NearestArcParam,
            0x16 => Call::SvgArcToCenter,
            0x17 => Call::CircumscribedArc,
            0x18 => Call::CircleTangentThrough,
            0x19 => Call::FitEarcTangent,
            _ => return Err(UnknownCall(number)),
        })
    }
}

impl Call {
    // The number in the table.
    pub fn number(self) -> usize
        ensures value { result ≡ number_of self }
        ensures within { result < 26 }
    {
        self as usize
    }

    // How many inputs the call has.
    pub fn arity(self) -> usize
        ensures { result ≤ 18 }
    {
        match self {
            Call::NormTau => 1,
            Call::EllipseTangent => 4,
            Call::EllipsePoint
            | Call::PointToSegmentDist
            | Call::ProjectOntoSegment
            | Call::CircumscribedArc
            | Call::CircleTangentThrough => 6,
            Call::ArcStartPos | Call::ArcEndPos | Call::ArcRadii | Call::LineLineIntersection => 8,
            Call::ArcPointAt
            | Call::ArcTangentAt
            | Call::ArcParamInSpan
            | Call::IntersectSegments
            | Call::SvgArcToCenter
            | Call::FitEarcTangent => 9,
            Call::ArcThetaOfPos
            | Call::ArcParamAtPoint
            | Call::PointToArcDist
            | Call::NearestArcParam => 10,
            Call::IntersectSegmentArc => 13,
            Call::Hit => 15,
            Call::IntersectArcs | Call::Intersect => 18,
        }
    }
}
