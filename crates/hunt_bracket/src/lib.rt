// One bracket of the hunt: the value at an angle, the narrowing to one angle, and what becomes of it.
#![tactic(auto)]

mod fates;
mod narrowing;
mod values;

use curves::{Arc, Radii};
use hits::CurveHit;
use sine::SinCos;

// The two arcs with what one evaluation needs of them, worked out once: the sine and the cosine of both rotations, b's effective radii.
// Plain fields and no invariant: `value` and `point` are defined of any frame.
#[derive(Clone, Copy)]
pub struct Frame {
    pub a: Arc,
    pub b: Arc,
    pub turn_a: SinCos,
    pub turn_b: SinCos,
    pub radii: Radii,
}

// A cell of a's span: its two angles, the values there, and whether it closes the span, so that a zero at its end counts too. The mark hides no value: the four numbers count in either case.
#[derive(Clone, Copy)]
pub struct Cell {
    pub lo: f64,
    pub hi: f64,
    pub g_lo: f64,
    pub g_hi: f64,
    pub closes: bool,
}

// A bracket that is being narrowed: its two angles and the value at the first.
#[derive(Clone, Copy)]
pub struct Stretch {
    pub lo: f64,
    pub hi: f64,
    pub g_lo: f64,
}

// What becomes of a bracket.
#[derive(Clone, Copy)]
pub enum Fate {
    OutsideA,
    OutsideB,
    Double,
    Hit(CurveHit),
}
