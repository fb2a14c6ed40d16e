// Lines.
ghost use Rattle.std.specs.Prelude.{◌≡◌};
ghost use Rattle.conics.specs.Lines.{line_through, normalized, unit_line, line_value};

use curves::Point;

// Where ax + by + c is 0, as [a, b, c]: 01, 'What must change shape', asks for arrays.
#[derive(Clone, Copy)]
pub struct Line {
    pub abc: [f64; 3],
}

impl Line {
    // The line through p in the direction t.
    pub fn through(p: Point, t: Point) -> Self
        ensures { result ≡ line_through p t }
    {
        Line {
            abc: [t.y, -t.x, -(t.y * p.x - t.x * p.y)],
        }
    }

    pub fn divided_by(self, len: f64) -> Self
        ensures { result ≡ normalized self len }
    {
        let [a, b, c] = self.abc;
        Line {
            abc: [a / len, b / len, c / len],
        }
    }

    // None where a and b are too small to be a direction.
    pub fn normalized(self) -> Option<Self>
        ensures { result ≡ unit_line self }
    {
        let [a, b, _] = self.abc;
        let len = root::norm(a, b);
        if len < 1e-12 {
            return None;
        }
        Some(self.divided_by(len))
    }

    pub fn value_at(self, p: Point) -> f64
        ensures { result ≡ line_value self p }
    {
        let [a, b, c] = self.abc;
        a * p.x + b * p.y + c
    }
}
