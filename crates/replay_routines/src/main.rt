// Replays stored answers. A row of standard input is 70 bytes: the letter of a routine, up to three
// numbers and the answer that is right, each as 16 hex digits of its bits after one tab, and a newline.
// It prints for each routine how many rows it had and how many of them it answers otherwise.
// The root and the angles are asked by their exports, as C and Rust ask them. Of the exported `sin_cos` a row has the angle, how many of
// three numbers are lent, and which of them is meant: its bits after the call are the answer; for 3 the refusal is.
#![tactic(auto)]

mod routine;

use replay_rows::answer::UNWRITTEN;
use replay_rows::rows;
use replay_rows::tally::Count;
use routine::{NAMES, Routine};
use std::io;
use std::io::{ErrorKind, Read, Stdin};

#[derive(Clone, Copy)]
struct Row {
    letter: u8,
    x: u64,
    y: u64,
    z: u64,
    right: u64,
}

// A byte that is no digit counts as 0.
fn hex_word(digits: &[u8]) -> u64 {
    digits
        .iter()
        .fold(0, |word, b| word << 4 | rows::digit(*b).unwrap_or(0))
}

fn row_of(bytes: &[u8; 70]) -> Row {
    Row {
        letter: bytes[0],
        x: hex_word(&bytes[2..18]),
        y: hex_word(&bytes[19..35]),
        z: hex_word(&bytes[36..52]),
        right: hex_word(&bytes[53..69]),
    }
}

// The next row, where the input has a whole one left.
fn read_row(input: &mut Stdin) -> io::Result<Option<Row>> {
    let mut bytes = [0u8; 70];
    match input.read_exact(&mut bytes) {
        Ok(()) => Ok(Some(row_of(&bytes))),
        Err(e) if e.kind() == ErrorKind::UnexpectedEof => Ok(None),
        Err(e) => Err(e),
    }
}

// Three numbers, of which the first `len` are lent: number `asked` of them after the call, and for 3 the refusal.
fn sin_cos(x: f64, len: u64, asked: u64) -> u64 {
    let mut out = [UNWRITTEN; 3];
    let lent = (len % 4) as usize;
    let refusal = export_routines::arcs_sin_cos(x, &mut out[..lent]);
    out.get(asked as usize)
        .map_or(u64::from(refusal), |number| scalar::to_bits(*number))
}

// The bits of the answer. A match and no table: the routines take one, two or three numbers.
fn answer(routine: Routine, row: &Row) -> u64 {
    let x = scalar::from_bits(row.x);
    let y = scalar::from_bits(row.y);
    let z = scalar::from_bits(row.z);
    scalar::to_bits(match routine {
        Routine::Sin => export_routines::arcs_sin(x),
        Routine::Cos => export_routines::arcs_cos(x),
        Routine::SinCos => return sin_cos(x, row.y, row.z),
        Routine::Atan2 => export_routines::arcs_atan2(x, y),
        Routine::Acos => export_routines::arcs_acos(x),
        Routine::Sqrt => export_routines::arcs_sqrt(x),
        Routine::Abs => scalar::abs(x),
        Routine::Min => scalar::min(x, y),
        Routine::Max => scalar::max(x, y),
        Routine::Clamp => scalar::clamp(x, y, z),
    })
}

// The counts of the routines by their order, and at last of the rows whose letter is unknown: each of these differs. No `Tally`, which counts calls and prints all of them by their table;
// and one array, since the names stand in the same order.
type Counts = [Count; 11];

fn count(counts: &mut Counts, row: &Row) {
    match Routine::try_from(row.letter) {
        Ok(routine) => counts[routine.index()].add(answer(routine, row) == row.right),
        Err(_) => counts[10].add(false),
    }
}

fn replay(input: &mut Stdin) -> io::Result<Counts> {
    let mut counts = [Count::default(); 11];
    // a proved loop has to end: no input has so many rows
    for _ in 0..0xffff_ffffu64 {
        let Some(row) = read_row(input)? else {
            break;
        };
        count(&mut counts, &row);
    }
    Ok(counts)
}

fn main(rt: HostRuntime) -> io::Result<()> {
    let mut input = rt.stdin();
    let output = rt.stdout();
    let counts = replay(&mut input)?;
    for (name, count) in NAMES.iter().zip(&counts) {
        println!(output; "{name}: {count}")?;
    }
    Ok(())
}
