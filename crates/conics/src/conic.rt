// The conic of the pencil that the target lies on, as its symmetric matrix.
ghost use Rattle.std.specs.Prelude.{◌≡◌};
ghost use Rattle.conics.specs.Conic.{lambda, conic_matrix};

use crate::lines::Line;
use curves::Point;

// Entries 00, 01, 11, 02, 12, 22. The other three are never read.
#[derive(Clone, Copy)]
pub struct Conic {
    pub a: f64,
    pub b: f64,
    pub c: f64,
    pub d: f64,
    pub e: f64,
    pub f: f64,
}

// The a, the b or the c of each line of a pencil.
#[derive(Clone, Copy)]
pub struct Column {
    pub l1: f64,
    pub l2: f64,
    pub m: f64,
}

// The conic l1 l2 + lambda m^2 = 0 goes through the target point mid, where m has the value m_val.
pub fn lambda(l1: Line, l2: Line, mid: Point, m_val: f64) -> f64
    ensures { result ≡ lambda l1 l2 mid m_val }
{
    -(l1.value_at(mid) * l2.value_at(mid)) / (m_val * m_val)
}

// The conics that touch l1 and l2 where m meets them.
#[derive(Clone, Copy)]
pub struct Pencil {
    pub l1: Line,
    pub l2: Line,
    pub m: Line,
}

impl Pencil {
    // Its conic goes through the target point mid, where m has the value m_val.
    pub fn lambda(self, mid: Point, m_val: f64) -> f64
        ensures { result ≡ lambda self.l1 self.l2 mid m_val }
    {
        lambda(self.l1, self.l2, mid, m_val)
    }

    pub fn conic(self, lambda: f64) -> Conic
        ensures { result ≡ conic_matrix self.l1 self.l2 self.m lambda }
    {
        let Pencil { l1, l2, m } = self;
        let a = Column {
            l1: l1.abc[0],
            l2: l2.abc[0],
            m: m.abc[0],
        };
        let b = Column {
            l1: l1.abc[1],
            l2: l2.abc[1],
            m: m.abc[1],
        };
        let c = Column {
            l1: l1.abc[2],
            l2: l2.abc[2],
            m: m.abc[2],
        };
        let entry = |i: Column, j: Column| (i.l1 * j.l2 + i.l2 * j.l1) / 2.0 + lambda * i.m * j.m;
        Conic {
            a: entry(a, a),
            b: entry(a, b),
            c: entry(b, b),
            d: entry(a, c),
            e: entry(b, c),
            f: entry(c, c),
        }
    }
}
