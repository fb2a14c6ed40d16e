// The conic fit (001): the arc of an ellipse through two points, with a direction at each and a bulge.
#![tactic(auto)]

mod ends;
mod target;

ghost use Rattle.std.specs.Prelude.{◌≡◌};
ghost use Rattle.earc_fit.specs.Fit.{conic_arc, fit_earc_tangent};

use conics::conic::{Conic, Pencil};
use conics::lines::Line;
use curves::Point;
use ends::End;
use shapes::Fitted;
use target::Chord;

// The arc on the conic q from the first end to p2.
#[tactic(auto, unfolding(crate::specs::Fit::conic_arc))]
fn conic_arc(first: End, p2: Point, q: Conic) -> Option<Fitted>
    ensures { result ≡ conic_arc first.p first.t p2 q }
{
    let center = q.center()?;
    let ev = q.eigenvalues()?;
    let squares = q.radii_squared(center, ev)?;
    Some(ends::fitted_arc(first, p2, center, squares, q.rotation(ev)))
}

// The chord's line is normalized by the root of the same sum as the chord's length. Its test stays, as every test of 001 has its own place.
#[tactic(auto, unfolding(crate::specs::Fit::fit_earc_tangent))]
pub fn fit_earc_tangent(p1: Point, t1: Point, p2: Point, t2: Point, bulge: f64) -> Option<Fitted>
    ensures { result ≡ fit_earc_tangent p1 t1 p2 t2 bulge }
{
    let first = End { p: p1, t: t1 };
    let second = End { p: p2, t: t2 };
    let chord = Chord::between(p1, p2)?;
    let m = Line::through(p1, chord.way).normalized()?;
    let bulge_sign = target::bulge_sign(first, second, chord.way, m);
    let mid = chord.target_mid(bulge_sign, bulge);
    let m_val = m.value_at(mid);
    if scalar::abs(m_val) < 1e-12 {
        return None;
    }
    let pencil = Pencil {
        l1: first.tangent(),
        l2: second.tangent(),
        m,
    };
    conic_arc(first, p2, pencil.conic(pencil.lambda(mid, m_val)))
}
