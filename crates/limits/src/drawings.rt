// The pairs of arcs that are run, each by its name.
use arcs::{Arc, Point};

#[derive(Clone, Copy)]
pub struct Drawing {
    pub name: &'static str,
    pub a: Arc,
    pub b: Arc,
}

impl Drawing {
    fn swapped(self, name: &'static str) -> Drawing {
        Drawing {
            name,
            a: self.b,
            b: self.a,
        }
    }
}

pub const ORIGIN: Point = Point { x: 0.0, y: 0.0 };

pub fn circle(center: Point, radius: f64) -> Arc {
    Arc {
        center,
        radius,
        radius_b: radius,
        rotation: 0.0,
        start: 0.0,
        end: 0.0,
        ccw: true,
        closed: true,
        is_ellipse: false,
    }
}

// A circle that is marked as an ellipse, so that its crossings are searched.
fn round_ellipse(center: Point, radius: f64) -> Arc {
    Arc {
        is_ellipse: true,
        ..circle(center, radius)
    }
}

pub fn unit_circle() -> Arc {
    circle(ORIGIN, 1.0)
}

pub fn two_circles() -> Drawing {
    Drawing {
        name: "two circles",
        a: unit_circle(),
        b: circle(Point { x: 1.0, y: 0.0 }, 1.0),
    }
}

// A flange's edge and a relief hole.
pub fn p10() -> Drawing {
    let center = Point {
        x: 999.9247,
        y: 12.2715,
    };
    Drawing {
        name: "P10",
        a: round_ellipse(ORIGIN, 1000.0),
        b: circle(center, 10.0),
    }
}

pub fn p10_swapped() -> Drawing {
    p10().swapped("P10 swapped")
}

// An edge that ends on the rim of a round.
pub fn p11() -> Drawing {
    Drawing {
        name: "P11",
        a: Arc {
            radius_b: 1.0,
            start: -1.0,
            closed: false,
            ..round_ellipse(ORIGIN, 2.0)
        },
        b: circle(Point { x: 2.0, y: 1.0 }, 1.0),
    }
}

pub fn p11_swapped() -> Drawing {
    p11().swapped("P11 swapped")
}

// A point ellipse on b: every sample is a zero, so that every cell is a hit.
pub fn on_the_circle() -> Drawing {
    Drawing {
        name: "a point on the circle",
        a: round_ellipse(Point { x: 1.0, y: 0.0 }, 0.0),
        b: unit_circle(),
    }
}
