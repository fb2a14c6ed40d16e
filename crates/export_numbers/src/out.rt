// What the library answers, as numbers in a lent slice.
ghost use Rattle.std.specs.Prelude.{◌≡◌, ◌≤◌, length};
ghost use Rattle.rooms.specs.Laid.{over};
ghost use Rattle.checks.specs.Answer.{told};
ghost use Rattle.export_numbers.specs.Exported.{short, with_room, NumbersOut, NumbersWritten};

use calls_answers::Numbers;
use checks::Refusal;

// The refusal of a room that is too short, as an export gives it.
pub const SHORT: u32 = Refusal::RoomTooShort as u32;

// Refused where they do not fit.
pub fn write(numbers: &[f64], out: &mut [f64]) -> u32
    ensures { NumbersWritten (length numbers.now) 0 numbers.now out.old result out.new }
{
    if out.len() < numbers.len() {
        return SHORT;
    }
    place(numbers, out);
    0
}

// A store for each value. `copy_from_slice` would make the archive for C need `memmove` from outside.
pub fn place<T: Copy>(values: &[T], out: &mut [T])
    requires { length values.now ≤ length out.old }
    ensures { out.new ≡ over values.now out.old }
{
    for i in 0..values.len() {
        out[i] = values[i];
    }
}

// The library's refusal where there is room for so many numbers; else the room's in its place, as 01's order has it: by the numbers, which C is given and in which that order stands.
pub fn refuse(no: u32, need: usize, room: usize) -> u32
    ensures { result ≡ with_room no (short need room) }
{
    if (0 < no) & (no < SHORT) {
        return no;
    }
    if room < need {
        return SHORT;
    }
    no
}

// What a call answers, to the head of `out`.
pub fn write_answer<const N: usize, T: Numbers<N>>(
    answer: Result<T, Refusal>,
    out: &mut [f64],
) -> u32
    ensures { NumbersOut N (told T.says answer) out.old result out.new }
{
    match answer {
        Ok(x) => write(&x.numbers(), out),
        Err(r) => refuse(u32::from(r), N, out.len()),
    }
}
