// The lines of an input whose bytes come in pieces of any size: what is kept of the line at hand.
#![tactic(auto)]

ghost use Rattle.std.specs.Prelude.{◌≡◌, ◌≤◌, [], ◌∷◌, ◌++◌, ltb, length, take};
ghost use Rattle.desk_lines.specs.Hand.{most, kept, Takes};
ghost use Rattle.desk_lines.specs.Buffer.{IsLaid};

use std::marker::Model;

// How many bytes of a line are kept. A line above 256 is malformed, however long it is.
pub const KEPT: usize = 257;

// What is kept of the line at hand. A buffer and a count and no `ArrayVec`, which is not `Copy`.
#[derive(Clone, Copy)]
pub struct KeptLine {
    bytes: [u8; KEPT],
    count: usize,
}

impl Model for KeptLine {
    ghost use Rattle.std.specs.Prelude.{ℕ, List, length, take};

    ghost Value = { List ℕ };

    ghost use Rattle.desk_lines.specs.Buffer.{laid, IsLaid};

    ghost view = { λ h. take h.count h.bytes };

    ghost invariant = { λ h. IsLaid h.bytes h.count };

    // The zeros behind the bytes are there for it: by them the list gives the buffer back, so that a copy is the same.
    ghost inverse = { λ line. record { bytes = laid line; count = length line } };

    ghost inverse_ok = { λ h l i. record { bytes = l.back i; count = l.counted i } };
}

impl KeptLine {
    pub fn new() -> Self
        ensures { result ≡ [] }
    {
        KeptLine {
            bytes: [0; KEPT],
            count: 0,
        }
    }

    // The first bytes of a buffer, as many as a count says that are kept, or all.
    pub fn of(bytes: &[u8; KEPT], count: usize) -> Self
        ensures { result ≡ take count bytes.now }
    {
        let count = count.min(KEPT);
        let mut own = *bytes;
        own[count..].fill(0);
        KeptLine { bytes: own, count }
    }

    pub fn as_slice(&self) -> &[u8]
        ensures { result.now ≡ self.now }
    {
        &self.bytes[..self.count]
    }

    pub fn clear(&mut self)
        ensures { self.new ≡ [] }
    {
        self.bytes[..self.count].fill(0);
        self.count = 0;
    }
}

// Whether there is anything of the line at hand.
pub fn begun(line: &KeptLine) -> bool
    ensures { result ≡ ltb 0 (length line.now) }
{
    0 < line.count
}

// One byte more in the buffer of the line at hand, where it is kept. Gives how many are kept then.
fn keep(bytes: &mut [u8; KEPT], count: usize, b: u8) -> usize
    requires { IsLaid bytes.old count }
    ensures laid { IsLaid bytes.new result }
    ensures kept { take result bytes.new ≡ kept (take count bytes.old ++ b ∷ []) }
{
    if count < KEPT {
        bytes[count] = b;
        return count + 1;
    }
    count
}

// The bytes of the piece go to the line at hand, up to a newline, which is read too, or to the end. Gives up to where the piece is read, if a newline ended the line.
// The count is stored once, since a store for each byte takes longer.
pub fn take_line(line: &mut KeptLine, piece: &[u8]) -> Option<usize>
    ensures takes { Takes line.old piece.now result line.new }
    ensures few { length line.old ≤ most }
{
    let mut count = line.count;
    for (i, &b) in piece.iter().enumerate() {
        if b == b'\n' {
            line.count = count;
            return Some(i + 1);
        }
        count = keep(&mut line.bytes, count, b);
    }
    line.count = count;
    None
}
