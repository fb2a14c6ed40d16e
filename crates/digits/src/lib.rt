// Digits of numbers as bytes: appended to a list of fixed capacity, and the value of one that is read. By hand and not by `write!`: what that writes is promised of a `String` alone, and here every byte is.
#![tactic(auto)]

ghost use Rattle.std.specs.Prelude.{◌≡◌, ◌+◌, ◌<◌, ◌≤◌, ◌++◌};
ghost use Rattle.arrayvec.specs.ArrayVec.{array_vec_len};
ghost use Rattle.digits.specs.Hex.{hex_digit, hex, hex_value};
ghost use Rattle.digits.specs.Decimal.{decimal, digit_value};

use arrayvec::ArrayVec;

fn hex_digit(v: u64) -> u8
    requires { v < 16 }
    ensures { result ≡ hex_digit v }
{
    if v < 10 {
        return b'0' + v as u8;
    }
    b'a' - 10 + v as u8
}

// The 16 hex digits of n, the highest first.
pub fn put_hex<const N: usize>(out: &mut ArrayVec<u8, N>, n: u64)
    requires { array_vec_len out.old + 16 ≤ N }
    ensures { out.new.items ≡ out.old.items ++ hex n }
{
    for digit in (0..16u32).rev() {
        out.push(hex_digit((n >> (4 * digit)) % 16));
    }
}

// The decimal digits of n. A division gives the lowest, so a row that has room for 20 is filled from its end.
pub fn put_decimal<const N: usize>(out: &mut ArrayVec<u8, N>, n: u64)
    requires { array_vec_len out.old + 20 ≤ N }
    ensures { out.new.items ≡ out.old.items ++ decimal n }
{
    let mut digits = [0; 20];
    let mut first = 19;
    let mut rest = n;
    while 10 <= rest {
        digits[first] = b'0' + (rest % 10) as u8;
        first -= 1;
        rest /= 10;
    }
    digits[first] = b'0' + rest as u8;
    for i in first..20 {
        out.push(digits[i]);
    }
}

// The value of a decimal digit. A number that is no byte has none.
pub fn digit_value(b: u64) -> Option<u8>
    ensures { result ≡ digit_value b }
{
    let b = u8::try_from(b).ok()?;
    match b {
        b'0'..=b'9' => Some(b - b'0'),
        _ => None,
    }
}

// The value of a hex digit. `char::to_digit` takes upper case too.
pub fn hex_value(b: u64) -> Option<u8>
    ensures { result ≡ hex_value b }
{
    let b = u8::try_from(b).ok()?;
    match b {
        b'a'..=b'f' => Some(b - b'a' + 10),
        _ => digit_value(u64::from(b)),
    }
}
