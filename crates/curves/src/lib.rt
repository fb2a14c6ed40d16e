// What the calls are about: positions, arcs, effective radii, and curves of either kind.
#![tactic(auto)]

#[derive(Clone, Copy)]
pub struct Point {
    pub x: f64,
    pub y: f64,
}

// A circular arc or an ellipse's, whole where `closed`. `ccw` is its direction from start to end.
// Seven floats and three marks, 01's form: a mark stands beside its number, since points and tangents use radius_b whatever the mark.
#[derive(Clone, Copy)]
pub struct Arc {
    pub center: Point,
    pub radius: f64,
    pub radius_b: f64,
    pub rotation: f64,
    pub start: f64,
    pub end: f64,
    pub ccw: bool,
    pub closed: bool,
    pub is_ellipse: bool,
}

// Effective radii.
#[derive(Clone, Copy)]
pub struct Radii {
    pub a: f64,
    pub b: f64,
}

// A segment's two ends as four floats, or an arc: 01's form of a curve.
#[derive(Clone, Copy)]
pub enum Curve {
    Segment(f64, f64, f64, f64),
    Arc(Arc),
}

// What stands in a place of a list of fixed capacity that no curve has taken.
impl Default for Curve {
    fn default() -> Self {
        Curve::Segment(0.0, 0.0, 0.0, 0.0)
    }
}
