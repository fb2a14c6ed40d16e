// Crossings of two curves, and the lent room that they are written to.
#![tactic(auto)]

ghost use Rattle.std.specs.Prelude.{◌≡◌, ◌<◌, ◌≤◌, ◌/◌, length, map};
ghost use Rattle.hits.specs.Hit.{hit_size, hit_from, hit_of, put, hit_at, written, hit_part};
ghost use Rattle.hits.specs.Need.{short};
ghost use Rattle.hits.specs.Stands.{OfHits};
ghost use Rattle.hits.specs.Listed.{listed, one, both, turned, exchanged};

use curves::Point;

// How many numbers a hit takes: `hit_size` of specs/Hit.antt.
pub const HIT: usize = 4;

// How long the rooms are that a caller lends.
#[derive(Clone, Copy)]
pub struct Lengths {
    pub room: usize,
}

// One crossing: the parameter on each curve, and the position.
#[derive(Clone, Copy)]
pub struct CurveHit {
    pub t_a: f64,
    pub t_b: f64,
    pub pos: Point,
}

// What a hunt counts. The four fates, hits among them, add up to the brackets.
#[derive(Clone, Copy, Default)]
pub struct Tally {
    pub hits: usize,
    pub brackets: u32,
    pub outside_a: u32,
    pub outside_b: u32,
    pub doubles: u32,
    pub evaluations: u32,
}

// What a closed form finds, in order: the roots of a quadratic, the crossings at them. Three cases and no list: `match` names what there is, and nothing is filled.
#[derive(Clone, Copy)]
pub enum UpToTwo<T> {
    Zero,
    One(T),
    Two(T, T),
}

impl<T: Copy> UpToTwo<T> {
    // One candidate, if it is kept.
    pub fn one(a: Option<T>) -> UpToTwo<T>
        ensures { result ≡ one a }
    {
        match a {
            Some(h) => UpToTwo::One(h),
            None => UpToTwo::Zero,
        }
    }

    // Those of two candidates that are kept.
    pub fn both(a: Option<T>, b: Option<T>) -> UpToTwo<T>
        ensures { result ≡ both a b }
    {
        match (a, b) {
            (Some(h), Some(g)) => UpToTwo::Two(h, g),
            (Some(h), None) | (None, Some(h)) => UpToTwo::One(h),
            (None, None) => UpToTwo::Zero,
        }
    }
}

// Whether what is lent is too short for so many hits.
#[tactic(auto, unfolding(crate::specs::Need::short))]
pub fn short(hits: usize, lent: Lengths) -> bool
    ensures { result ≡ short hits lent }
{
    lent.room / HIT < hits
}

impl From<[f64; HIT]> for CurveHit {
    ghost from_gives = { λ ns h. h ≡ hit_from ns };

    fn from(ns: [f64; HIT]) -> CurveHit {
        let [t_a, t_b, x, y] = ns;
        CurveHit {
            t_a,
            t_b,
            pos: Point { x, y },
        }
    }
}

impl CurveHit {
    fn turned(self) -> CurveHit
        ensures { result ≡ turned self }
    {
        CurveHit {
            t_a: self.t_b,
            t_b: self.t_a,
            ..self
        }
    }
}

impl UpToTwo<CurveHit> {
    // The same crossings with the curves in the other order.
    pub fn exchanged(self) -> UpToTwo<CurveHit>
        ensures { result ≡ exchanged self }
    {
        match self {
            UpToTwo::Zero => UpToTwo::Zero,
            UpToTwo::One(h) => UpToTwo::One(h.turned()),
            UpToTwo::Two(h, g) => UpToTwo::Two(h.turned(), g.turned()),
        }
    }
}

pub fn hit_of(t_a: f64, t_b: f64, pos: Point) -> CurveHit
    ensures { result ≡ hit_of t_a t_b pos }
{
    CurveHit { t_a, t_b, pos }
}

// The hit i of those in the room.
#[tactic(auto, using(crate::proofs::Rooms::chunk_hit))]
pub fn hit_at(room: &[f64], i: usize) -> CurveHit
    requires { i < length room.now / hit_size }
    ensures { result ≡ hit_at room.now i }
{
    CurveHit::from(room.as_chunks::<HIT>().0[i])
}

// The first hits in the room, each as its numbers.
#[tactic(auto, using(crate::proofs::Rooms::hits_read))]
pub fn first_hits(room: &[f64], count: usize) -> &[[f64; HIT]]
    requires { count ≤ length room.now / hit_size }
    ensures { OfHits count room.now (λ hs. map hit_from result.now ≡ hs) }
{
    &room.as_chunks::<HIT>().0[..count]
}

// The room is the caller's slice of numbers, as C lends it, and the count stands in the tally: a struct of both would be made and opened at each cell of the hunt.
// Writes a hit after the first n. Number by number, since an array that is copied to its place goes over the stack, which made the crossings of two circles slower.
#[tactic(auto, using(crate::proofs::Rooms::put_stores))]
pub fn put(room: &mut [f64], n: usize, h: CurveHit)
    requires { n < length room.old / hit_size }
    ensures { room.new ≡ put room.old n h }
{
    let at = n * HIT;
    room[at] = h.t_a;
    room[at + 1] = h.t_b;
    room[at + 2] = h.pos.x;
    room[at + 3] = h.pos.y;
}

// Writes the crossings and answers how many they are.
#[tactic(auto, using(crate::proofs::Rooms::written_none, crate::proofs::Rooms::put_first, crate::proofs::Rooms::put_second))]
pub fn write(room: &mut [f64], c: UpToTwo<CurveHit>) -> usize
    requires { length (listed c) ≤ length room.old / hit_size }
    ensures { (result ≡ length (listed c)) × (room.new ≡ written (listed c) room.old) }
{
    match c {
        UpToTwo::Zero => 0,
        UpToTwo::One(h) => {
            put(room, 0, h);
            1
        }
        UpToTwo::Two(h, g) => {
            put(room, 0, h);
            put(room, 1, g);
            2
        }
    }
}

// The numbers of the hit i, as that part of the room; the empty part where there is no such hit or it does not fit.
// A part of the room and no Option, by 01's form: C is told how many numbers it has, 0 for none.
#[tactic(auto, unfolding(crate::specs::Hit::hit_part))]
pub fn hit<'a>(room: &'a [f64], hits: usize, i: usize) -> &'a [f64]
    ensures { result.now ≡ hit_part room.now hits i }
{
    if hits.min(room.len() / HIT) <= i {
        return &room[..0];
    }
    let at = i * HIT;
    &room[at..at + HIT]
}
