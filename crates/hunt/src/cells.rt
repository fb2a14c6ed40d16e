// How a's span is cut into cells, and which cells bracket.
ghost use Rattle.std.specs.Prelude.{◌≡◌, ◌≤◌};
ghost use Rattle.laws.specs.Part.{part};
ghost use Rattle.hunt.specs.Cells.{cells, span, sample, bracket, closing_cell, is_closing, brackets};

use curves::Arc;
use hunt_bracket::Cell;
use scalar::TAU;

// Depth k has 256 * 2^k cells.
pub fn cell_count(depth: u32) -> u32
    requires { depth ≤ 7 }
    ensures { result ≡ cells depth }
{
    256 << depth
}

// From start to end, or once around.
#[tactic(auto, unfolding(crate::specs::Cells::span))]
pub fn span(a: Arc) -> f64
    ensures { result ≡ span a }
{
    let end = if a.closed { a.start + TAU } else { a.end };
    end - a.start
}

pub fn step(span: f64, n: u32) -> f64
    ensures { result ≡ part span n }
{
    span / f64::from(n)
}

#[tactic(auto, unfolding(crate::specs::Cells::sample))]
pub fn sample(start: f64, step: f64, i: u32) -> f64
    ensures { result ≡ sample start step i }
{
    if i == 0 {
        start
    } else {
        start + step * f64::from(i)
    }
}

// The Rust's rule: whether these values at a cell's ends bracket a crossing.
#[tactic(auto, unfolding(crate::specs::Cells::bracket))]
fn bracket(first: f64, second: f64) -> bool
    ensures { result ≡ bracket first second }
{
    first == 0.0 || first * second < 0.0
}

// Which cell of a depth closes the span, counted from 1. Depth 0 is the Rust's, which has no such cell.
#[tactic(auto, unfolding(crate::specs::Cells::closing_cell))]
pub fn closing_cell(depth: u32) -> Option<u32>
    requires { depth ≤ 7 }
    ensures { result ≡ closing_cell depth }
{
    if depth == 0 {
        return None;
    }
    Some(cell_count(depth))
}

// Whether it is the cell i, counted from 1.
pub fn is_closing(closing: Option<u32>, i: u32) -> bool
    ensures { result ≡ is_closing closing i }
{
    Some(i) == closing
}

// Whether a cell brackets a crossing: one bracket, also where both rules hold.
#[tactic(auto, unfolding(crate::specs::Cells::brackets))]
pub fn brackets(c: Cell) -> bool
    ensures { result ≡ brackets c }
{
    bracket(c.g_lo, c.g_hi) || (c.closes && c.g_hi == 0.0)
}
