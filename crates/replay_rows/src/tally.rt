// How many rows there were of each call and of all, and how many of them the library answers otherwise.
ghost use Rattle.std.specs.Prelude.{◌≡◌};
ghost use Rattle.replay_rows.specs.Counted.{Counts, counted};

use crate::call::Call;
use std::io::Stdout;
use std::{fmt, io};

// How many rows, and how many of them differ. The largest number stays.
#[derive(Clone, Copy, Debug, Default, PartialEq, Eq)]
pub struct Count {
    pub rows: u64,
    pub differ: u64,
}

impl Count {
    ghost use Rattle.replay_rows.specs.Count.{with_row};

    // One row more, which is the same or differs.
    pub fn add(&mut self, same: bool)
        ensures { self.new ≡ with_row self.old same }
    {
        self.rows = self.rows.saturating_add(1);
        if !same {
            self.differ = self.differ.saturating_add(1);
        }
    }
}

impl fmt::Display for Count {
    fn fmt<W: fmt::Write>(&self, f: &mut fmt::Formatter<W>) -> fmt::Result {
        write!(f, "{} rows, {} differ", self.rows, self.differ)
    }
}

// What became of a row that could be read.
#[derive(Clone, Copy, Debug, PartialEq, Eq)]
pub enum Row {
    Same(Call),
    Differs(Call),
}

// The counts of the calls stand at their numbers, that of all at 0, which no call has; and so do the names below.
#[derive(Clone, Copy, Debug, Default, PartialEq, Eq)]
pub struct Tally {
    pub counts: [Count; 26],
    pub unread: u64,
}

impl Tally {
    // A row of the call with a number. Of a number that no call has it counts among all: of one above 25 once, of 0 twice.
    pub fn count(&mut self, call: u64, same: bool)
        ensures counts { self.new.counts ≡ counted self.old.counts call same }
        ensures unread { self.new.unread ≡ self.old.unread }
    {
        self.counts[0].add(same);
        if call < 26 {
            self.counts[call as usize].add(same);
        }
    }

    // None is a row that could not be read.
    pub fn add(&mut self, row: Option<Row>)
        ensures { Counts row self.old self.new }
    {
        match row {
            None => self.unread = self.unread.saturating_add(1),
            Some(Row::Same(call)) => self.count(call.number() as u64, true),
            Some(Row::Differs(call)) => self.count(call.number() as u64, false),
        }
    }

    // Stops at the first write that fails.
    pub fn print(&self, output: Stdout) -> io::Result<()> {
        for (name, count) in NAMES.iter().zip(&self.counts).skip(1) {
            println!(output; "{name:24}{count}")?;
        }
        println!(output;
            "{:24}{}, {} could not be read",
            NAMES[0], self.counts[0], self.unread
        )
    }
}

// At the number of the call, and at 0 the name of all.
const NAMES: [&str; 26] = [
    "all:",
    "ellipse_point:",
    "ellipse_tangent:",
    "arc_point_at:",
    "arc_tangent_at:",
    "arc_start_pos:",
    "arc_end_pos:",
    "norm_tau:",
    "arc_param_in_span:",
    "arc_radii:",
    "arc_theta_of_pos:",
    "arc_param_at_point:",
    "point_to_segment_dist:",
    "project_onto_segment:",
    "line_line_intersection:",
    "intersect_segments:",
    "intersect_segment_arc:",
    "intersect_arcs:",
    "intersect:",
    "hit:",
    "point_to_arc_dist:",
    "nearest_arc_param:",
    "svg_arc_to_center:",
    "circumscribed_arc:",
    "circle_tangent_through:",
    "fit_earc_tangent:",
];
