// The steps of the rule on whole numbers. Their bounds are clauses and no types: a number is handed from step to step bare, and a struct of it would be opened in each.
ghost use Rattle.std.specs.Prelude.{◌≡◌, ◌+◌, ◌*◌, ◌/◌, ◌^◌, ◌<◌, ◌≤◌, not, ◌==◌};
ghost use Rattle.sine.specs.Node.{apart};
ghost use Rattle.sine.specs.Short.{bend, lack, short_sine, short_versine};
ghost use Rattle.sine.specs.Rule.{turned, rounded, ranged, floated};

// How far the angle is from a node, at 2^66.
#[tactic(auto, unfolding(crate::specs::Node::apart))]
pub fn apart(n: u64, c: u64) -> u64
    requires { (n ≤ c + 2 ^ 56) × (c ≤ n + 2 ^ 56) }
    ensures { result ≡ apart n c }
{
    n.abs_diff(c) * 32
}

// w * (k - w * c / s) / 2^32.
#[tactic(auto, unfolding(crate::specs::Short::bend))]
fn bend(k: u64, c: u64, s: u64, w: u64) -> u64
    requires { (w ≤ 2 ^ 32) × (k < 2 ^ 32) × (c < 2 ^ 32) × (2 ^ 32 * c ≤ k * s) × (0 < s) }
    ensures { result ≡ bend k c s w }
{
    w * (k - w * c / s) / 4294967296
}

// What the sine lacks of g, as a part of g, at 2^70; z is the square of g at 2^70.
// `lack` and `short_versine` are one form with five constants: one function of the five would need clauses on them longer than both.
#[tactic(auto, using(crate::proofs::Sizes::bent_le), unfolding(crate::specs::Short::lack))]
fn lack(z: u64) -> u64
    requires { z ≤ 2 ^ 60 }
    ensures { result ≡ lack z }
{
    let w = z / 268435456;
    z / 6 - w * bend(2290649225, 3490513021, 281474976710656, w) / 1048576
}

// The sine of g at 2^66.
#[tactic(auto, unfolding(crate::specs::Short::short_sine))]
pub fn short_sine(g: u64, z: u64) -> u64
    requires { (g ≤ 2 ^ 61) × (z ≤ 2 ^ 60) }
    ensures { result ≡ short_sine g z }
{
    g - fixed::high(g, lack(z)) / 256
}

// One less the cosine, at 2^70.
#[tactic(auto, using(crate::proofs::Sizes::bent_le), unfolding(crate::specs::Short::short_versine))]
pub fn short_versine(z: u64) -> u64
    requires { z ≤ 2 ^ 60 }
    ensures { result ≡ short_versine z }
{
    let w = z / 268435456;
    z / 2 - w * bend(2863311531, 3054159019, 140737488355328, w) / 262144
}

// A node's row turned by the rest of the angle: 3 more than the answer, at 2^61.
#[tactic(auto, unfolding(crate::specs::Rule::turned))]
pub fn turned(b: u64, c: u64, v: u64, s: u64, down: bool) -> u64
    requires { (b ≤ 2 ^ 62) × (c ≤ 2 ^ 62) × (v ≤ 2 ^ 59) × (s ≤ 2 ^ 61) }
    ensures { result ≡ turned b c v s down }
{
    let base = 4611686018427387904 + b - fixed::high(b, v) / 256 + v / 512;
    let e = fixed::high(c, s) / 16;
    if down {
        base + s / 32 - e
    } else {
        base + e - s / 32
    }
}

// t to 53 places: 3 more than the answer, at 2^53.
#[tactic(auto, unfolding(crate::specs::Rule::rounded))]
pub fn rounded(t: u64) -> u64
    requires { t < 2 ^ 63 + 2 ^ 62 }
    ensures { result ≡ rounded t }
{
    (t + 128) / 256
}

// Whether k is outside of the range of the answers, or at its end, 2^55.
pub fn outside(k: u64) -> bool
    ensures { result ≡ not (k / 2 ^ 54 == 1) }
{
    k / 18014398509481984 != 1
}

// k in the range of the answers.
#[tactic(auto, unfolding(crate::specs::Rule::ranged))]
pub fn ranged(k: u64) -> u64
    ensures { result ≡ ranged k }
{
    k.clamp(18014398509481984, 36028797018963968)
}

// The float that k stands for, negated where `flip`.
pub fn float(k: u64, flip: bool) -> f64
    requires { (2 ^ 54 ≤ k) × (k ≤ 2 ^ 55) }
    ensures { result ≡ floated k flip }
{
    let y = (((k as i64) - 27021597764222976) as f64) * 1.1102230246251565e-16;
    fixed::pick(flip, -y, y)
}
