// The whole number nearest to the root of a whole number of up to 106 binary digits, of which all but
// the first 64 are zeros.
ghost use Rattle.std.specs.Prelude.{◌≡◌, ◌+◌, ◌*◌, ◌^◌, ◌≤◌, ◌<◌, IfSome};
ghost use Rattle.root.specs.Steps.{Nearest, Turned};

// The state of a root by digits. Of the digits of the number taken so far `root` is the whole part of
// the root, and `rest` what they are above its square. `word` has the digits to come, the highest first.
#[derive(Clone, Copy)]
struct Digits {
    root: u64,
    rest: u64,
    word: u64,
}

impl Digits {
    // The next two digits of the number, and with them the next digit of the root.
    fn turn(self) -> Self
        requires { (self.root < 2 ^ 53) × (self.rest ≤ 2 * self.root) }
        ensures { Turned self.root self.rest self.word result.root result.rest result.word }
    {
        let rest = 4 * self.rest + (self.word >> 62);
        let word = self.word << 2;
        match rest.checked_sub(4 * self.root + 1) {
            Some(rest) => Digits {
                root: 2 * self.root + 1,
                rest,
                word,
            },
            None => Digits {
                root: 2 * self.root,
                rest,
                word,
            },
        }
    }
}

// The whole number nearest to the root of word * 2^42: 53 digits of the root, then up or down by what
// is left.
fn by_digits(word: u64) -> u64
    requires { 0 < word }
    ensures { Nearest (word * 2 ^ 42) result }
{
    let mut d = Digits {
        root: 0,
        rest: 0,
        word,
    };
    for _ in 0..53u32 {
        d = d.turn();
    }
    if d.rest > d.root {
        return d.root + 1;
    }
    d.root
}

// By how much word * 2^42 is above the guess's square, and 2^56 more. The square, of up to 106 digits,
// is taken from the number in three steps of 27 digits each, with a margin so that none comes out below
// zero. Where one comes out large the guess is far off, and there is no answer. The differences are
// tested by hand, since `checked_sub` compiles to two moves more on the way that every root waits for.
// The bound on the guess is a clause and no type here and below: it is one number on its way from
// `newton::guess`, and a struct of it would be opened at each use.
fn excess(word: u64, guess: u64) -> Option<u64>
    requires { guess < 2 ^ 53 }
    ensures { IfSome result (λ over. (over < 2 ^ 62) × (over + guess * guess ≡ word * 2 ^ 42 + 2 ^ 56)) }
{
    let high = guess / 0x800_0000;
    let low = guess % 0x800_0000;
    let top = word / 0x1000 + 1;
    if high * high > top {
        return None;
    }
    let first = top - high * high;
    if first >= 0x4000_0000 {
        return None;
    }
    let middle = first * 0x800_0000 + 0x1000_0000;
    let cross = 2 * high * low;
    if cross > middle {
        return None;
    }
    let second = middle - cross;
    if second >= 0x3800_0000 {
        return None;
    }
    Some((second + 0x800_0000) * 0x800_0000 + word % 0x1000 * 0x400_0000_0000 - low * low)
}

// The whole number nearest to the root of word * 2^42, by a guess that is one off at most.
fn by_guess(word: u64, guess: u64) -> Option<u64>
    requires { (0 < guess) × (guess < 2 ^ 53) }
    ensures { IfSome result (λ near. Nearest (word * 2 ^ 42) near) }
{
    let over = excess(word, guess)?;
    if over + 3 * guess <= 0x100_0000_0000_0002 {
        return None;
    }
    if over > 0x100_0000_0000_0002 + 3 * guess {
        return None;
    }
    // no branch, since no branch predictor could tell
    Some(
        guess + u64::from(over > 0x100_0000_0000_0000 + guess)
            - u64::from(over + guess <= 0x100_0000_0000_0000),
    )
}

// The whole number nearest to the root of word * 2^42, from a guess; by digits where that is far off.
pub fn nearest(word: u64, guess: u64) -> u64
    requires { (0 < word) × (0 < guess) × (guess < 2 ^ 53) }
    ensures { Nearest (word * 2 ^ 42) result }
{
    by_guess(word, guess).unwrap_or_else(|| by_digits(word))
}
