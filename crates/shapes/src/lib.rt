// What distances, constructions and the fit give back: the records alone.
#![tactic(auto)]

use curves::Point;

// A distance and the point of the curve that has it.
#[derive(Clone, Copy)]
pub struct Near {
    pub dist: f64,
    pub pos: Point,
}

// An arc's center, its ends as angles, and its radii, which are larger than the given ones where those do not reach.
#[derive(Clone, Copy)]
pub struct Converted {
    pub center: Point,
    pub start: f64,
    pub end: f64,
    pub rx: f64,
    pub ry: f64,
}

// The arc from the first point to the second by way of the third.
#[derive(Clone, Copy)]
pub struct Circumscribed {
    pub center: Point,
    pub radius: f64,
    pub start: f64,
    pub end: f64,
    pub ccw: bool,
}

#[derive(Clone, Copy)]
pub struct Circle {
    pub center: Point,
    pub radius: f64,
}

#[derive(Clone, Copy)]
pub struct Fitted {
    pub center: Point,
    pub rx: f64,
    pub ry: f64,
    pub rotation: f64,
    pub start: f64,
    pub end: f64,
    pub ccw: bool,
}
