//! Reading a number.
ghost use Rattle.std.specs.Prelude.{◌≡◌, ◌≤◌, ◌<◌, ◌-◌, ◌^◌, ℕ, slice_index, MatchOption, pos, negsuc, ◌+◌, ◌*◌};
ghost use Rattle.std.specs.Option.{SomeIff};
ghost use Rattle.abc_value.specs.Reading.{IsDigitAt, NoDigitAt, IsMore, NoMore, IsDecimalFront, NoDecimal, ReadsScalar, IsNoMark};
ghost use Rattle.abc_value.specs.declared.scalar.Scalar.TheVariants.{Number};

use crate::bytes::behind_first;
use crate::scalar::Scalar;

/// The digit at a place.
fn digit(bytes: &[u8], at: usize) -> Option<u64>
    ensures { MatchOption result (NoDigitAt bytes.now at) (λ d. IsDigitAt bytes.now at d) }
{
    if at >= bytes.len() {
        return None;
    }
    let byte = bytes[at];
    if byte < b'0' || byte > b'9' {
        return None;
    }
    Some((byte - b'0') as u64)
}

/// `value * 10 + d`, where that is at most `most`.
fn fitted(value: u64, d: u64, most: u64) -> Option<u64>
    ensures { SomeIff result (value * 10 + d ≤ most) (value * 10 + d) }
{
    match value.checked_mul(10) {
        Some(tens) if tens <= most && d <= most - tens => Some(tens + d),
        _ => None,
    }
}

/// The number with the digit at a place put after it, where that is at most `most`.
fn more(value: u64, bytes: &[u8], at: usize, most: u64) -> Option<u64>
    ensures { MatchOption result (NoMore value bytes.now at most) (λ m. IsMore value bytes.now at most m) }
{
    match digit(bytes, at) {
        Some(d) => fitted(value, d, most),
        None => None,
    }
}

/// The longest front that is a decimal number of at most `most`, and its length.
fn magnitude(bytes: &[u8], most: u64) -> Option<(u64, usize)>
    requires { 9 ≤ most }
    ensures { MatchOption result (NoDecimal bytes.now) (λ r. IsDecimalFront bytes.now most r.0 r.1) }
{
    match digit(bytes, 0) {
        Some(first) if first == 0 => Some((0, 1)),
        Some(first) => Some(rest_of_number(first, bytes, most)),
        None => None,
    }
}

/// Goes on after a first digit as long as there is one more and the number is at most `most`.
fn rest_of_number(first: u64, bytes: &[u8], most: u64) -> (u64, usize)
    requires most { 9 ≤ most }
    requires digit { IsDigitAt bytes.now 0 first }
    requires some { 0 < first }
    ensures { IsDecimalFront bytes.now most result.0 result.1 }
{
    let mut value = first;
    let mut at = 1;
    'digits: loop {
        match more(value, bytes, at, most) {
            Some(next) => {
                value = next;
                at += 1;
            }
            None => return (value, at),
        }
    }
}

/// A scalar that is a number without a sign.
pub fn natural(bytes: &[u8]) -> Option<(Scalar, usize)>
    requires { IsNoMark (slice_index bytes.now 0) }
    ensures { ReadsScalar bytes.now result }
{
    match magnitude(bytes, i64::MAX as u64) {
        Some((m, n)) => Some((Scalar::Number(plain(m)), n)),
        None => None,
    }
}

/// A scalar that is a number below 0; `-0` is none.
pub fn negative(bytes: &[u8]) -> Option<(Scalar, usize)>
    requires { slice_index bytes.now 0 ≡ 45 }
    ensures { ReadsScalar bytes.now result }
{
    match magnitude(behind_first(bytes), 1 << 63) {
        Some((m, n)) => { if m > 0 { Some(below_zero(m, n)) } else { None } }
        None => None,
    }
}

fn plain(m: u64) -> i64
    requires { m < 2 ^ 63 }
    ensures { result ≡ pos m }
{
    m as i64
}

fn below_zero(m: u64, n: usize) -> (Scalar, usize)
    requires some { 0 < m }
    requires fits { m ≤ 2 ^ 63 }
    requires short { n < 2 ^ 63 }
    ensures scalar { result.0 ≡ Number (negsuc (m - 1)) }
    ensures length { result.1 ≡ n + 1 }
{
    (Scalar::Number(negated(m)), n + 1)
}

fn negated(m: u64) -> i64
    requires some { 0 < m }
    requires fits { m ≤ 2 ^ 63 }
    ensures { result ≡ negsuc (m - 1) }
{
    -1 - plain(m - 1)
}
