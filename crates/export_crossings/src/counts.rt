// The answers of the calls with hits: the refusal's number, and the counts to a lent slice.
ghost use Rattle.std.specs.Prelude.{◌≡◌, ◌≤◌, List, ℕ, [], ◌∷◌, length, refl};
ghost use Rattle.std.proofs.Common.{rules};
ghost use Rattle.rooms.specs.Laid.{over};
ghost use Rattle.checks.specs.Refusal.{room_too_short, or_later, refusal_told};
ghost use Rattle.checks.specs.Answer.{told, counted, tally_counts};

use checks::Refusal;
use hits::Tally;

// What a call counts, as C reads it. A trait of its own beside `Numbers`: a tally tells counts and no numbers, and one over the element would carry both of an answer's lists.
pub trait Counts<const N: usize> {
    ghost says: { Self → List ℕ };

    fn counts(self) -> [u64; N]
        ensures values { result ≡ says self }
        ensures count { length result ≡ N };

    // An array of them fits into memory.
    ghost few: { N ≤ 6 };
}

// How many hits.
impl Counts<1> for usize {
    ghost says = { λ n. n ∷ [] };

    ghost few = { Prim.search rules };

    fn counts(self) -> [u64; 1] {
        [self as u64]
    }
}

// The six counts of a hunt.
impl Counts<6> for Tally {
    ghost says = { tally_counts };

    ghost few = { Prim.search rules };

    fn counts(self) -> [u64; 6] {
        [
            self.hits as u64,
            u64::from(self.brackets),
            u64::from(self.outside_a),
            u64::from(self.outside_b),
            u64::from(self.doubles),
            u64::from(self.evaluations),
        ]
    }
}

// The counts to the head of `counts`. Each export tests first whether they fit: one function over a call and its refusal would have to say both contracts again.
pub fn write_counts<const N: usize, T: Counts<N>>(
    found: Result<T, Refusal>,
    counts: &mut [u64],
) -> u32
    requires { N ≤ length counts.old }
    ensures refusal { result ≡ (told (λ x. counted (T.says x)) found).refusal }
    ensures counts { counts.new ≡ over (told (λ x. counted (T.says x)) found).counts counts.old }
{
    match found {
        Ok(x) => {
            export_numbers::place(&x.counts(), counts);
            0
        }
        Err(r) => r.into(),
    }
}

// The refusal of a call whose counts do not fit: its own, and else the room's.
pub fn short(asked: Result<(), Refusal>) -> u32
    ensures { result ≡ or_later (refusal_told asked) room_too_short }
{
    match asked {
        Ok(()) => export_numbers::SHORT,
        Err(r) => r.into(),
    }
}
