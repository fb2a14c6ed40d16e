// The drawings and limits of document 01 that are run: one line a case. stdout has the lines that are right. Each function is handed where it prints, as the language asks,
// apart from what it prints of.
#![tactic(auto)]

mod copying;
mod drawings;
mod told;

ghost use Rattle.std.specs.Prelude.{◌≤◌, ◌<◌};

use arcs::{CLOSED_HITS, Curve, HIT, HUNT_HITS, Point, Refusal, Tally};
use drawings::{
    Drawing, ORIGIN, on_the_circle, p10, p10_swapped, p11, p11_swapped, two_circles, unit_circle,
};
use hits::CurveHit;
use std::io;
use std::io::Stdout;
use told::{Counts, Hits, Told};

// The numbers of two hits, and of a hit in each cell of a depth.
const TWO: usize = CLOSED_HITS * HIT;

const DEPTH_0: usize = HUNT_HITS * HIT;

const DEPTH_1: usize = 2 * DEPTH_0;

const DEPTH_2: usize = 2 * DEPTH_1;

const DEPTH_3: usize = 2 * DEPTH_2;

// A call brings its contract along, which is dear to check. So each is made in one place, and the cases are told to that.

// The distance of a position from the segment from 0 to (1, 0).
fn ask_distance(output: Stdout, words: &str, x: f64, y: f64) -> io::Result<()> {
    let one = Point { x: 1.0, y: 0.0 };
    let told = Told(arcs::point_to_segment_dist(Point { x, y }, ORIGIN, one).map(|_| "taken"));
    println!(output; "{words}: {told}")
}

fn ask_norm(output: Stdout, words: &str, angle: f64) -> io::Result<()> {
    let told = Told(arcs::norm_tau(angle).map(|_| "taken"));
    println!(output; "{words}: {told}")
}

fn run_limits(output: Stdout) -> io::Result<()> {
    let beyond = scalar::from_bits(0x4130000000000001);
    let infinity = scalar::from_bits(0x7ff0000000000000);
    ask_distance(output, "a coordinate of 1048576", 1048576.0, 0.0)?;
    ask_distance(output, "the next f64", beyond, 0.0)?;
    ask_distance(output, "an infinity before it", infinity, beyond)?;
    ask_norm(output, "an angle of 1024", 1024.0)?;
    ask_norm(
        output,
        "the next f64",
        scalar::from_bits(0x4090000000000001),
    )?;
    ask_norm(output, "a NaN", scalar::from_bits(0x7ff8000000000000))
}

fn ask_segments(output: Stdout, words: &str, room: &mut [f64]) -> io::Result<()> {
    let a = Point { x: 2.0, y: 2.0 };
    let b = Point { x: 0.0, y: 2.0 };
    let c = Point { x: 2.0, y: 0.0 };
    let len = room.len();
    let told = Told(arcs::intersect_segments(ORIGIN, a, b, c, room).map(Hits));
    println!(output; "{words}room of {len}: {told}")
}

fn ask_segment_arc(output: Stdout, words: &str, room: &mut [f64]) -> io::Result<()> {
    let a = Point { x: -2.0, y: 0.0 };
    let b = Point { x: 2.0, y: 0.0 };
    let len = room.len();
    let told = Told(arcs::intersect_segment_arc(a, b, unit_circle(), room).map(Hits));
    println!(output; "{words}room of {len}: {told}")
}

fn run_rooms(output: Stdout) -> io::Result<()> {
    let mut one = [0.0; HIT];
    let mut two = [0.0; TWO];
    ask_segments(output, "two segments, ", &mut one)?;
    ask_segments(output, "", &mut one[1..])?;
    ask_segment_arc(output, "a segment and a circle, ", &mut two)?;
    ask_segment_arc(output, "", &mut two[1..])
}

fn print_hunted(
    output: Stdout,
    words: &str,
    depth: u32,
    len: usize,
    answer: Result<Tally, Refusal>,
) -> io::Result<()> {
    let told = Told(answer.map(Counts));
    println!(output; "{words}, depth {depth}, room of {len}: {told}")
}

fn ask_arcs(output: Stdout, d: Drawing, depth: u32, room: &mut [f64]) -> io::Result<()> {
    let len = room.len();
    let answer = arcs::intersect_arcs(d.a, d.b, depth, room);
    print_hunted(output, d.name, depth, len, answer)
}

fn ask_curves(
    output: Stdout,
    words: &str,
    a: Curve,
    b: Curve,
    depth: u32,
    room: &mut [f64],
) -> io::Result<()> {
    let len = room.len();
    let answer = arcs::intersect(a, b, depth, room);
    print_hunted(output, words, depth, len, answer)
}

fn ask_as_curves(output: Stdout, d: Drawing, depth: u32, room: &mut [f64]) -> io::Result<()> {
    ask_curves(
        output,
        "as curves",
        Curve::Arc(d.a),
        Curve::Arc(d.b),
        depth,
        room,
    )
}

// A room of the need, and one number less.
fn in_rooms<const NEED: usize, F: Fn(&mut [f64]) -> io::Result<()>>(run: F) -> io::Result<()>
    requires some { 0 < NEED }
    requires fits { NEED ≤ DEPTH_3 }
    requires run { F.IsAlwaysCallable run }
{
    let mut whole = [0.0; NEED];
    let room = &mut whole[..];
    run(room)?;
    run(&mut room[1..])
}

// Pairs that are solved: the need is the same at every depth.
fn run_solved(output: Stdout, room: &mut [f64]) -> io::Result<()> {
    let circle = Curve::Arc(unit_circle());
    let segment = Curve::Segment(-2.0, 0.0, 2.0, 0.0);
    ask_arcs(output, two_circles(), 0, room)?;
    ask_as_curves(output, two_circles(), 3, room)?;
    ask_curves(output, "a segment and a circle", segment, circle, 0, room)?;
    ask_curves(output, "a circle and a segment", circle, segment, 3, room)
}

fn run_both(output: Stdout, d: Drawing, depth: u32, room: &mut [f64]) -> io::Result<()> {
    ask_arcs(output, d, depth, room)?;
    ask_as_curves(output, d, depth, room)
}

// The need is a hit for each cell of the depth. A depth above 3 is refused before a room that is too short.
fn run_searched(output: Stdout) -> io::Result<()> {
    in_rooms::<DEPTH_0, _>(|room| run_both(output, p10(), 0, room))?;
    in_rooms::<DEPTH_1, _>(|room| run_both(output, p10(), 1, room))?;
    in_rooms::<DEPTH_2, _>(|room| run_both(output, p10(), 2, room))?;
    in_rooms::<DEPTH_3, _>(|room| run_both(output, p10(), 3, room))?;
    run_both(output, p10(), 4, &mut [0.0; DEPTH_0 - 1])
}

fn run_full(output: Stdout) -> io::Result<()> {
    ask_arcs(output, on_the_circle(), 0, &mut [0.0; DEPTH_0])?;
    ask_arcs(output, on_the_circle(), 1, &mut [0.0; DEPTH_1])?;
    ask_arcs(output, on_the_circle(), 2, &mut [0.0; DEPTH_2])?;
    ask_arcs(output, on_the_circle(), 3, &mut [0.0; DEPTH_3])
}

// The bits of t_a, t_b, x and y, each as 16 hex digits.
fn print_hit(output: Stdout, words: &str, h: CurveHit) -> io::Result<()> {
    let [t_a, t_b, x, y] = numbers(h).map(scalar::to_bits);
    println!(output; "{words}: {t_a:016x} {t_b:016x} {x:016x} {y:016x}")
}

fn numbers(h: CurveHit) -> [f64; 4] {
    [h.t_a, h.t_b, h.pos.x, h.pos.y]
}

fn run_edge_at(output: Stdout, d: Drawing, depth: u32) -> io::Result<()> {
    let mut room = [0.0; DEPTH_3];
    ask_arcs(output, d, depth, &mut room)?;
    print_hit(output, "hit 1", hits::hit_at(&room, 0))
}

// Depth 0 is the original's and finds nothing; a finer hunt finds the end. From the round's side depth 0 finds it too.
fn run_edge(output: Stdout) -> io::Result<()> {
    ask_arcs(output, p11(), 0, &mut [0.0; DEPTH_0])?;
    for depth in 1..4 {
        run_edge_at(output, p11(), depth)?;
    }
    for depth in 0..2 {
        run_edge_at(output, p11_swapped(), depth)?;
    }
    Ok(())
}

// Whether a hit has the numbers that it should.
fn print_held(output: Stdout, words: &str, right: CurveHit, copied: CurveHit) -> io::Result<()> {
    let same = numbers(right)
        .iter()
        .zip(&numbers(copied))
        .filter(|(x, y)| **x == **y)
        .count();
    let told = match same {
        4 => "as it should be",
        0 => "wrong in all four numbers",
        _ => "wrong in some number",
    };
    println!(output; "{words}: {told}")
}

// The hits of a pair, and those of the build that copies the first bracket, held against them.
fn run_copying(output: Stdout, d: Drawing, depth: u32) -> io::Result<()>
    requires { depth ≤ 3 }
{
    let mut room = [0.0; DEPTH_3];
    let mut copies = [0.0; DEPTH_3];
    ask_arcs(output, d, depth, &mut room)?;
    print_hit(output, "hit 1", hits::hit_at(&room, 0))?;
    print_hit(output, "hit 2", hits::hit_at(&room, 1))?;
    let counts = Counts(copying::hunt(d.a, d.b, depth, &mut copies));
    println!(output; "by copying the first bracket: {counts}")?;
    print_held(
        output,
        "hit 1",
        hits::hit_at(&room, 0),
        hits::hit_at(&copies, 0),
    )?;
    print_held(
        output,
        "hit 2",
        hits::hit_at(&room, 1),
        hits::hit_at(&copies, 1),
    )
}

// P10 at depth 1, where both crossings are found, and with the hole first.
fn run_copies(output: Stdout) -> io::Result<()> {
    run_copying(output, p10(), 1)?;
    for depth in 0..4 {
        run_copying(output, p10_swapped(), depth)?;
    }
    Ok(())
}

fn main(rt: HostRuntime) -> io::Result<()> {
    let output = rt.stdout();
    run_limits(output)?;
    run_rooms(output)?;
    in_rooms::<TWO, _>(|room| run_solved(output, room))?;
    run_searched(output)?;
    run_both(output, p10_swapped(), 0, &mut [0.0; DEPTH_0])?;
    run_edge(output)?;
    run_full(output)?;
    run_copies(output)
}
