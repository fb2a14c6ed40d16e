// The words of a row: whole numbers in hex digits, parted by one tab.
ghost use Rattle.std.specs.Prelude.{◌≡◌};
ghost use Rattle.digits.specs.Hex.{hex_value};

use arrayvec::ArrayVec;

// A line as its bytes come. A row has at most 128 words of 16 digits and the tabs between them, a byte less than fits here. So a line that is full is no row, and what comes after may be dropped.
pub type Line = ArrayVec<u8, 2176>;

pub type Words = ArrayVec<u64, 128>;

// The value of a hex digit.
pub fn digit(b: u8) -> Option<u64>
    ensures { result ≡ hex_value b }
{
    digits::hex_value(u64::from(b)).map(u64::from)
}

fn word(digits: &[u8]) -> Option<u64> {
    if digits.is_empty() || 16 < digits.len() {
        return None;
    }
    digits
        .iter()
        .try_fold(0, |word, b| Some(word << 4 | digit(*b)?))
}

// Puts the words of a line in the place of those before it. Nothing where some word cannot be read, or there are too many.
pub fn read_words(line: &[u8], words: &mut Words) -> Option<()> {
    words.clear();
    for digits in line.split(|b| *b == b'\t') {
        words.try_push(word(digits)?).ok()?;
    }
    Some(())
}

// The words of one line. Where lines follow one another, one list for all of them is faster.
pub fn words(line: &[u8]) -> Option<Words> {
    let mut words = Words::new();
    read_words(line, &mut words)?;
    Some(words)
}
