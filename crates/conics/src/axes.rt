// The center, the axes and the rotation of a conic.
ghost use Rattle.std.specs.Prelude.{◌≡◌};
ghost use Rattle.conics.specs.Axes.{determinant, center_of, center, eigenvalues, either_flat, axis_eigenvalues, radii_squared, either_unreal, axis_squares, rotation};

use crate::conic::Conic;
use curves::Point;

#[derive(Clone, Copy)]
pub struct Eigen {
    pub ev1: f64,
    pub ev2: f64,
}

impl Eigen {
    pub fn of(q: Conic) -> Self
        ensures { result ≡ eigenvalues q }
    {
        let trace = q.a + q.c;
        let disc = root::sqrt((q.a - q.c) * (q.a - q.c) + 4.0 * q.b * q.b);
        Eigen {
            ev1: (trace + disc) / 2.0,
            ev2: (trace - disc) / 2.0,
        }
    }

    pub fn either_flat(self) -> bool
        ensures { result ≡ either_flat self }
    {
        scalar::abs(self.ev1) < 1e-12 || scalar::abs(self.ev2) < 1e-12
    }
}

#[derive(Clone, Copy)]
pub struct Squares {
    pub rx_sq: f64,
    pub ry_sq: f64,
}

impl Squares {
    // About the center the conic is ev1 x^2 + ev2 y^2 + f' = 0.
    pub fn of(q: Conic, center: Point, ev: Eigen) -> Self
        ensures { result ≡ radii_squared q center ev }
    {
        let f_prime = q.f + q.d * center.x + q.e * center.y;
        Squares {
            rx_sq: -f_prime / ev.ev1,
            ry_sq: -f_prime / ev.ev2,
        }
    }

    pub fn either_unreal(self) -> bool
        ensures { result ≡ either_unreal self }
    {
        self.rx_sq <= 0.0 || self.ry_sq <= 0.0
    }
}

impl Conic {
    // Above 0 for an ellipse.
    pub fn determinant(self) -> f64
        ensures { result ≡ determinant self }
    {
        self.a * self.c - self.b * self.b
    }

    pub fn center_for(self, det2: f64) -> Point
        ensures { result ≡ center_of self det2 }
    {
        Point {
            x: (self.b * self.e - self.c * self.d) / det2,
            y: (self.b * self.d - self.a * self.e) / det2,
        }
    }

    // None for what is no ellipse.
    pub fn center(self) -> Option<Point>
        ensures { result ≡ center self }
    {
        let det2 = self.determinant();
        if det2 <= 1e-12 {
            return None;
        }
        Some(self.center_for(det2))
    }

    // None where either axis is too flat.
    pub fn eigenvalues(self) -> Option<Eigen>
        ensures { result ≡ axis_eigenvalues self }
    {
        let ev = Eigen::of(self);
        if ev.either_flat() {
            return None;
        }
        Some(ev)
    }

    // None where either axis is not real.
    pub fn radii_squared(self, center: Point, ev: Eigen) -> Option<Squares>
        ensures { result ≡ axis_squares self center ev }
    {
        let squares = Squares::of(self, center, ev);
        if squares.either_unreal() {
            return None;
        }
        Some(squares)
    }

    // The direction of the eigenvector of ev1. Where b vanishes 001 gives the axes in the other order.
    pub fn rotation(self, ev: Eigen) -> f64
        ensures { result ≡ rotation self ev }
    {
        if scalar::abs(self.b) > 1e-12 {
            arctan::atan2(ev.ev1 - self.a, self.b)
        } else if self.a <= self.c {
            0.0
        } else {
            scalar::FRAC_PI_2
        }
    }
}
