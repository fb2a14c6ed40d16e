// The series in whole numbers: Horner's scheme over a row of the table. A number stands at 2^61 with 2 added, the rest h at 2^62.
// The bounds are clauses and no types: each step hands a bare number to the next, and a struct of one number would be opened and made again at each.

ghost use Rattle.std.specs.Prelude.{◌≡◌, ◌≤◌, pos};
ghost use Rattle.std.specs.Float.{binary64};
ghost use Rattle.std.specs.Float.Ieee.{of_int};
ghost use Rattle.arctan.specs.Sizes.{Coefficient, Number, Rest, Fit};
ghost use Rattle.arctan.specs.Rule.{rough, fine_step, rough_step, last_step, series_at, float_of};

use crate::table::Row;

// x * y / 2^62, by the upper parts alone.
#[tactic(auto, unfolding(crate::specs::Rule::rough))]
fn rough(x: u64, y: u64) -> u64
    requires { Number x × Rest y }
    ensures { result ≡ rough x y }
{
    x / 2147483648 * (y / 67108864) / 32
}

// Two steps, and not one over its product: handed in, the product would need a contract that says what it gives, longer than a step.
fn fine_step(c: u64, q: u64, h: u64) -> u64
    requires { Coefficient c × (Number q × Rest h) }
    ensures { (result ≡ fine_step c q h) × Number result }
{
    c + fixed::high(q, h) - h
}

fn rough_step(c: u64, q: u64, h: u64) -> u64
    requires { Coefficient c × (Number q × Rest h) }
    ensures { (result ≡ rough_step c q h) × Number result }
{
    c + rough(q, h) - h
}

pub fn series(r: Row, h: u64) -> u64
    requires { Fit r × Rest h }
    ensures { result ≡ series_at r h }
{
    let q = rough_step(r.a8, r.a9, h);
    let q = rough_step(r.a7, q, h);
    let q = rough_step(r.a6, q, h);
    let q = rough_step(r.a5, q, h);
    let q = rough_step(r.a4, q, h);
    let q = fine_step(r.a3, q, h);
    let q = fine_step(r.a2, q, h);
    let q = fine_step(r.a1, q, h);
    r.a0 + fixed::high(q, h)
}

// The number nearest to n, as std's own has it, but for the type of the lower half: where both are u64 the compiler for x86-64 casts the two as one vector, which takes longer.
fn nearest(n: u64) -> f64
    ensures { result ≡ of_int binary64 (pos n) }
{
    ((n >> 32) as f64) * 4294967296.0 + (((n & 0xffff_ffff) as u32) as f64)
}

// n / 2^61, rounded once.
#[tactic(auto, unfolding(crate::specs::Rule::float_of))]
pub fn float(n: u64) -> f64
    ensures { result ≡ float_of n }
{
    nearest(n) * 4.336808689942018e-19
}
