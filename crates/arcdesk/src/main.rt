// Reads records and queries from standard input, one a line, and prints the answers. Which bytes are printed is said and proved in
// `desk_stream`, of pieces of any size. Here the pieces are only read, and what each step leaves for printing is only written. At the
// first write or read that fails a line on standard error says why, and nothing more is answered.
#![tactic(auto)]

ghost use Rattle.std.specs.Prelude.{◌≡◌, is_ok};
ghost use Rattle.desk_output.specs.Reading.{start};
ghost use Rattle.desk_stream.specs.Run.{KnowsPart, KnowsSome};

use desk_stream::{Buffers, Stream};
use std::io::{Cursor, Read, Stderr, Stdin, Stdout, Write};
use std::{io, str};

// Why nothing more is answered.
#[derive(Drop)]
enum Failure {
    Output(io::Error),
    Input(io::Error),
}

// An error's text in the system's words alone: what stands behind them is the error's number.
fn without_number(text: &[u8]) -> &str {
    let text = str::from_utf8(text).unwrap_or("");
    match text.split_once(" (os error ") {
        Some((words, _)) => words,
        None => text,
    }
}

// A line on standard error: what could not be done, and why. Where it cannot be written, nothing is left to say that on.
fn tell(mut errors: Stderr, failure: Failure) {
    let (what, e) = match failure {
        Failure::Output(e) => ("the output cannot be written", e),
        Failure::Input(e) => ("the input cannot be read", e),
    };
    // A Cursor and no `ArrayString`: of a longer text it keeps what fits.
    let mut text = Cursor::new([0u8; 128]);
    let _ = write!(text, "{e}");
    let len = text.position() as usize;
    let bytes = text.into_inner();
    let why = without_number(bytes.get(..len).unwrap_or(b""));
    let _ = eprintln!(errors; "arcdesk: {what}: {why}");
}

fn print(mut output: Stdout, out: &[u8]) -> Result<(), Failure> {
    output.write_all(out).map_err(Failure::Output)
}

// The bytes of a piece, a step at a time. What a step leaves for printing is printed at once; where that fails, no step follows. The output, the stream and what is lent
// are handed on side by side, since the contract is of the stream alone.
fn piece(
    output: Stdout,
    stream: &mut Stream,
    bytes: &[u8],
    lent: &mut Buffers,
) -> Result<(), Failure>
    ensures { KnowsPart stream.old bytes.now (is_ok result) stream.new }
{
    let mut rest = bytes;
    while !rest.is_empty() {
        rest = stream.step(rest, lent);
        // In full and not by `?`, so that the edit cut_piece_counts_as_whole is refused at this return.
        if let Err(failure) = print(output, lent.out.as_slice()) {
            return Err(failure);
        }
    }
    Ok(())
}

// A piece, and how many bytes it has.
fn read_piece(
    mut input: Stdin,
    output: Stdout,
    stream: &mut Stream,
    lent: &mut Buffers,
) -> Result<usize, Failure>
    ensures { KnowsSome stream.old stream.new }
{
    let mut buffer = [0u8; 4096];
    let n = input.read(&mut buffer).map_err(Failure::Input)?;
    piece(output, stream, &buffer[..n], lent)?;
    Ok(n)
}

// A proved loop has to end, and nothing says that the input does. So the turns are counted, up to a number that no run reaches.
fn read_all(
    input: Stdin,
    output: Stdout,
    stream: &mut Stream,
    lent: &mut Buffers,
) -> Result<(), Failure>
    requires begun { stream.old ≡ start }
    ensures { KnowsSome start stream.new }
{
    for _ in 0..u64::MAX {
        if read_piece(input, output, stream, lent)? == 0 {
            break;
        }
    }
    Ok(())
}

fn run(input: Stdin, output: Stdout) -> Result<(), Failure> {
    let mut stream = Stream::begin();
    let mut lent = Buffers::new();
    read_all(input, output, &mut stream, &mut lent)?;
    stream.finish(&mut lent);
    print(output, lent.out.as_slice())
}

fn main(rt: HostRuntime) {
    if let Err(failure) = run(rt.stdin(), rt.stdout()) {
        tell(rt.stderr(), failure);
    }
}
