// What a fate leaves in the room and in the counts.
ghost use Rattle.std.specs.Prelude.{◌<◌, ◌/◌, length};
ghost use Rattle.hits.specs.Hit.{hit_size};
ghost use Rattle.hits.specs.Stands.{Adds};
ghost use Rattle.hits.specs.Holds.{Steps};
ghost use Rattle.hunt_bracket.specs.Fate.{kept};
ghost use Rattle.hunt.specs.Visits.{Small, fated};

use hits::Tally;
use hunt_bracket::{Fate, Frame};

// Writes a hit after the first n, and nothing for the other fates.
#[tactic(auto, using(hits::proofs::Held::nothing_added))]
fn keep(room: &mut [f64], n: usize, d: Fate)
    requires { n < length room.old / hit_size }
    ensures { Adds (kept d) n room.old room.new }
{
    match d {
        Fate::Hit(h) => hits::put(room, n, h),
        Fate::OutsideA | Fate::OutsideB | Fate::Double => {}
    }
}

// A bracket that was narrowed to the angle `at`: its fate, counted and kept.
pub fn settle(f: &Frame, at: f64, t: Tally, room: &mut [f64]) -> Tally
    requires { Small t × (t.hits < length room.old / hit_size) }
    ensures { Steps (fated f.now at) t room.old result room.new }
{
    let d = f.fate(at, hits::first_hits(room, t.hits));
    keep(room, t.hits, d);
    crate::counts::settled(t, d)
}
