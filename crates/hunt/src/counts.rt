// The counts of a hunt.
ghost use Rattle.std.specs.Prelude.{◌≡◌, ◌<◌, ◌+◌, ◌^◌};
ghost use Rattle.hits.specs.Outcome.{Outcome, tally};
ghost use Rattle.hunt.specs.Visits.{Small, settle, further};

use hits::Tally;
use hunt_bracket::Fate;

// n more angles were looked at.
pub fn looked(t: Tally, n: u32) -> Tally
    requires { t.evaluations + n < 2 ^ 32 }
    ensures { result ≡ further n t }
{
    Tally {
        evaluations: t.evaluations + n,
        ..t
    }
}

// One more bracket, with the fate d. That the counts are small is a clause and no type: a tally is any six counts for whoever reads it, and only a scan's own steps, which change it, need the bound.
pub fn settled(t: Tally, d: Fate) -> Tally
    requires { Small t }
    ensures { (o : Outcome) → t ≡ tally o → result ≡ tally (settle d o) }
{
    let t = Tally {
        brackets: t.brackets + 1,
        ..t
    };
    match d {
        Fate::OutsideA => Tally {
            outside_a: t.outside_a + 1,
            ..t
        },
        Fate::OutsideB => Tally {
            outside_b: t.outside_b + 1,
            ..t
        },
        Fate::Double => Tally {
            doubles: t.doubles + 1,
            ..t
        },
        Fate::Hit(_) => Tally {
            hits: t.hits + 1,
            ..t
        },
    }
}
