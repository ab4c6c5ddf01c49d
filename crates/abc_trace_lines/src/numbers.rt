//! Numbers in decimal digits, of 64 bits and without leading zeros.
ghost use Rattle.std.specs.Prelude.{◌≡◌, ◌<◌, ◌^◌, ◌*◌, ◌+◌, ◌-◌, ℕ, List, false, length, MatchBool, MatchOption};
ghost use Rattle.std.specs.Option.{SomeIff};
ghost use Rattle.std.specs.List.{AllPass};
ghost use Rattle.abc_text.specs.Tokens as spec;
ghost use Rattle.abc_trace_lines.specs.Fronts.{IsNumberText, IsNumberBefore, IsNumberFront, IsPlaceFront};

use crate::fronts::{behind_mark, cut_digits};
use abc_trace::MOST_PLACE;

/// The number with a digit put after it, where it has 64 bits.
fn with_digit(value: u64, b: u8) -> Option<u64>
    ensures { SomeIff result (value * 10 + (b - 48) < 2 ^ 64) (value * 10 + (b - 48)) }
{
    value
        .checked_mul(10)?
        .checked_add(u64::from(b.saturating_sub(b'0')))
}

/// The number that digits write, leading zeros or not; None where it has more than 64 bits.
fn value_of(digits: &[u8]) -> Option<u64>
    ensures { SomeIff result (spec.decimal digits.now < 2 ^ 64) (spec.decimal digits.now) }
{
    let mut value = 0u64;
    for b in digits {
        match with_digit(value, *b) {
            Some(more) => value = more,
            None => return None,
        }
    }
    Some(value)
}

/// Whether a zero stands before more digits.
fn begin_with_zero(first: u8, more: &[u8]) -> bool
    ensures { MatchBool result ((first ≡ 48) × (0 < length more.now))
        (first ≡ 48 → length more.now ≡ 0) }
{
    first == b'0' && !more.is_empty()
}

/// The number whose decimal text the digits are.
fn numeral(digits: &[u8]) -> Option<u64>
    requires { AllPass spec.is_digit digits.now }
    ensures { MatchOption result ((n : ℕ) → ¬ (IsNumberText digits.now n))
        (λ n. IsNumberText digits.now n) }
{
    match digits.split_first() {
        None => None,
        Some((first, more)) => {
            if begin_with_zero(*first, more) {
                None
            } else {
                value_of(digits)
            }
        }
    }
}

/// The number at the front, and what follows its digits.
pub fn number(bytes: &[u8]) -> Option<(u64, &[u8])>
    ensures { MatchOption result ((n : ℕ) (more : List ℕ) → ¬ (IsNumberFront bytes.now n more))
        (λ r. IsNumberFront bytes.now r.0 r.1.now) }
{
    let (digits, more) = cut_digits(bytes);
    match numeral(digits) {
        Some(n) => Some((n, more)),
        None => None,
    }
}

/// The number at the front before a byte that is no digit, and what follows that byte.
pub fn number_before(bytes: &[u8], mark: u8) -> Option<(u64, &[u8])>
    requires { spec.is_digit mark ≡ false }
    ensures { MatchOption result
        ((n : ℕ) (more : List ℕ) → ¬ (IsNumberBefore mark bytes.now n more))
        (λ r. IsNumberBefore mark bytes.now r.0 r.1.now) }
{
    let Some((n, rest)) = number(bytes) else {
        return None;
    };
    let Some(more) = behind_mark(rest, mark) else {
        return None;
    };
    Some((n, more))
}

/// The number that all of the bytes write.
pub fn whole_number(bytes: &[u8]) -> Option<u64>
    ensures { MatchOption result ((n : ℕ) → ¬ (IsNumberText bytes.now n))
        (λ n. IsNumberText bytes.now n) }
{
    match number(bytes) {
        Some((n, more)) => { if more.is_empty() { Some(n) } else { None } }
        None => None,
    }
}

/// The place of an output or an input at the front, and what follows its digits.
pub fn place(bytes: &[u8]) -> Option<(u32, &[u8])>
    ensures { MatchOption result ((n : ℕ) (more : List ℕ) → ¬ (IsPlaceFront bytes.now n more))
        (λ r. IsPlaceFront bytes.now r.0 r.1.now) }
{
    let Some((n, more)) = number(bytes) else {
        return None;
    };
    if n > u64::from(MOST_PLACE) {
        return None;
    }
    Some((n as u32, more))
}
