// Lines of output, appended to a list of fixed capacity.
#![tactic(auto)]

ghost use Rattle.std.specs.Prelude.{◌≡◌, ◌+◌, ◌≤◌, ◌++◌};
ghost use Rattle.arrayvec.specs.ArrayVec.{array_vec_len};
ghost use Rattle.desk_print.specs.Printed.{longest_numbers, longest_hit_line, count, number, head, numbers, refused_line, hit_line, end_line};

use arrayvec::ArrayVec;
use hits::{CurveHit, Tally};

#[tactic(auto, unfolding(crate::specs::Printed::count))]
fn put_count<const N: usize>(out: &mut ArrayVec<u8, N>, n: u64)
    requires { array_vec_len out.old + 21 ≤ N }
    ensures { out.new.items ≡ out.old.items ++ count n }
{
    out.push(b'\t');
    digits::put_decimal(out, n);
}

#[tactic(auto, unfolding(crate::specs::Printed::number))]
fn put_number<const N: usize>(out: &mut ArrayVec<u8, N>, x: f64)
    requires { array_vec_len out.old + 17 ≤ N }
    ensures { out.new.items ≡ out.old.items ++ number x }
{
    out.push(b'\t');
    digits::put_hex(out, scalar::to_bits(x));
}

// The letter that a line begins with, and its line number.
#[tactic(auto, unfolding(crate::specs::Printed::head))]
fn put_head<const N: usize>(out: &mut ArrayVec<u8, N>, letter: u8, line: u64)
    requires { array_vec_len out.old + 22 ≤ N }
    ensures { out.new.items ≡ out.old.items ++ head letter line }
{
    out.push(letter);
    put_count(out, line);
}

#[tactic(auto, using(crate::proofs::Lines::lengths), unfolding(crate::specs::Printed::numbers))]
fn put_numbers<const N: usize>(out: &mut ArrayVec<u8, N>, h: CurveHit)
    requires { array_vec_len out.old + longest_numbers ≤ N }
    ensures { out.new.items ≡ out.old.items ++ numbers h }
{
    put_number(out, h.t_a);
    put_number(out, h.t_b);
    put_number(out, h.pos.x);
    put_number(out, h.pos.y);
}

// The refusal by its number, as the line prints it: a line knows no call, and so not what refuses it.
#[tactic(auto, using(crate::proofs::Lines::lengths), unfolding(crate::specs::Printed::refused_line))]
pub fn refused_line<const N: usize>(out: &mut ArrayVec<u8, N>, line: u64, refusal: u8)
    requires { array_vec_len out.old + 44 ≤ N }
    ensures { out.new.items ≡ out.old.items ++ refused_line line refusal }
{
    put_head(out, b'R', line);
    put_count(out, u64::from(refusal));
    out.push(b'\n');
}

#[tactic(auto, using(crate::proofs::Lines::lengths), unfolding(crate::specs::Printed::hit_line))]
pub fn hit_line<const N: usize>(out: &mut ArrayVec<u8, N>, line: u64, i: u64, h: CurveHit)
    requires { array_vec_len out.old + longest_hit_line ≤ N }
    ensures { out.new.items ≡ out.old.items ++ hit_line line i h }
{
    put_head(out, b'H', line);
    put_count(out, i);
    put_numbers(out, h);
    out.push(b'\n');
}

#[tactic(auto, using(crate::proofs::Lines::lengths), unfolding(crate::specs::Printed::end_line))]
pub fn end_line<const N: usize>(out: &mut ArrayVec<u8, N>, line: u64, t: Tally)
    requires { array_vec_len out.old + 86 ≤ N }
    ensures { out.new.items ≡ out.old.items ++ end_line line t }
{
    put_head(out, b'E', line);
    put_count(out, t.hits as u64);
    put_count(out, u64::from(t.brackets));
    put_count(out, u64::from(t.evaluations));
    out.push(b'\n');
}
