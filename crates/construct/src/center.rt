// An SVG arc, given by its ends, as an arc about its center.
ghost use Rattle.std.specs.Prelude.{◌≡◌};
ghost use Rattle.construct.specs.Conversion.{about_center, svg_arc_to_center};

use crate::svg;
use crate::svg::{Ends, Flags};
use curves::{Point, Radii};
use shapes::Converted;

// The steps after the tests, with radii that are not negative.
#[tactic(auto, unfolding(crate::specs::Conversion::about_center))]
fn about_center(ends: Ends, given: Radii, rotation: f64, flags: Flags) -> Converted
    ensures { result ≡ about_center ends.p1 ends.p2 given rotation flags.large_arc flags.sweep }
{
    let rot = sine::sin_cos(rotation);
    let p = ends.primed(rot);
    let r = svg::enlarged(given, svg::lambda(p, given));
    let c = svg::primed_center(p, r, flags);
    let u = svg::scaled(p, c, r);
    let v = svg::scaled(Point { x: -p.x, y: -p.y }, c, r);
    let start = arctan::atan2(u.y, u.x);
    Converted {
        center: ends.turned_back(rot, c),
        start,
        end: start + flags.swept(svg::angle(u, v)),
        rx: r.a,
        ry: r.b,
    }
}

pub fn svg_arc_to_center(
    p1: Point,
    p2: Point,
    rx: f64,
    ry: f64,
    rotation: f64,
    large_arc: bool,
    sweep: bool,
) -> Option<Converted>
    ensures { result ≡ svg_arc_to_center p1 p2 rx ry rotation large_arc sweep }
{
    let ends = Ends { p1, p2 };
    let given = Radii {
        a: scalar::abs(rx),
        b: scalar::abs(ry),
    };
    if ends.identical() || svg::straight(given) {
        return None;
    }
    let flags = Flags { large_arc, sweep };
    Some(about_center(ends, given, rotation, flags))
}
