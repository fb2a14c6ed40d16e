// One line of input, read.
#![tactic(auto)]

ghost use Rattle.std.specs.Prelude.{◌≡◌};
ghost use Rattle.desk_line.specs.Read.{segment_of, arc_of, query_of, read_line};

use curves::{Arc, Curve, Point};
use desk_fields::Fields;

// A line that is taken by its form. A record number above 64, however many digits it has, is held as 65.
#[derive(Clone, Copy)]
pub enum Line {
    Record(Curve),
    Query {
        first: usize,
        second: usize,
        depth: u32,
    },
}

#[tactic(auto, unfolding(crate::specs::Read::segment_of))]
fn segment(mut fields: Fields) -> Option<Line>
    ensures { result ≡ segment_of fields.entry.rest.now }
{
    let x1 = fields.number()?;
    let y1 = fields.number()?;
    let x2 = fields.number()?;
    let y2 = fields.number()?;
    fields.end()?;
    Some(Line::Record(Curve::Segment(x1, y1, x2, y2)))
}

#[tactic(auto, unfolding(crate::specs::Read::arc_of))]
fn arc(mut fields: Fields) -> Option<Line>
    ensures { result ≡ arc_of fields.entry.rest.now }
{
    let arc = Arc {
        center: Point {
            x: fields.number()?,
            y: fields.number()?,
        },
        radius: fields.number()?,
        radius_b: fields.number()?,
        rotation: fields.number()?,
        start: fields.number()?,
        end: fields.number()?,
        ccw: fields.mark()?,
        closed: fields.mark()?,
        is_ellipse: fields.mark()?,
    };
    fields.end()?;
    Some(Line::Record(Curve::Arc(arc)))
}

#[tactic(auto, unfolding(crate::specs::Read::query_of))]
fn query(mut fields: Fields) -> Option<Line>
    ensures { result ≡ query_of fields.entry.rest.now }
{
    let first = fields.record()?;
    let second = fields.record()?;
    let depth = fields.digit()?;
    fields.end()?;
    Some(Line::Query {
        first,
        second,
        depth: u32::from(depth),
    })
}

// One line without its newline. None where it is malformed.
#[tactic(auto, unfolding(crate::specs::Read::read_line))]
pub fn read(line: &[u8]) -> Option<Line>
    ensures { result ≡ read_line line.now }
{
    if 256 < line.len() {
        return None;
    }
    let mut fields = Fields { rest: line };
    match fields.byte()? {
        b'S' => segment(fields),
        b'A' => arc(fields),
        b'X' => query(fields),
        _ => None,
    }
}
