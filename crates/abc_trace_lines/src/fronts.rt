//! What stands at the front of bytes.
ghost use Rattle.std.specs.Prelude.{◌≡◌, ◌∷◌, ◌++◌, ℕ, List, MatchBool, MatchOption};
ghost use Rattle.abc_text.specs.Tokens as spec;
ghost use Rattle.abc_trace_lines.specs.Fronts.{IsCut};

/// A to Z, a to z.
pub fn is_letter(b: u8) -> bool
    ensures { result ≡ spec.is_letter b }
{
    (65 <= b && b <= 90) || (97 <= b && b <= 122)
}

/// 0 to 9.
pub fn is_digit(b: u8) -> bool
    ensures { result ≡ spec.is_digit b }
{
    48 <= b && b <= 57
}

/// A letter, a digit or `_`.
pub fn is_word_byte(b: u8) -> bool
    ensures { result ≡ spec.is_word_byte b }
{
    is_letter(b) || is_digit(b) || b == b'_'
}

/// The digits at the front, and what follows them.
pub fn cut_digits(bytes: &[u8]) -> (&[u8], &[u8])
    ensures { IsCut spec.is_digit bytes.now result.0.now result.1.now }
{
    bytes.split_at(bytes.iter().take_while(|b| is_digit(**b)).count())
}

/// The bytes of a word at the front, and what follows them.
pub fn cut_word(bytes: &[u8]) -> (&[u8], &[u8])
    ensures { IsCut spec.is_word_byte bytes.now result.0.now result.1.now }
{
    bytes.split_at(bytes.iter().take_while(|b| is_word_byte(**b)).count())
}

/// What follows these bytes at the front; None where others stand there.
pub fn behind<'t>(bytes: &'t [u8], front: &[u8]) -> Option<&'t [u8]>
    ensures { MatchOption result ((more : List ℕ) → ¬ (bytes.now ≡ front.now ++ more))
        (λ more. bytes.now ≡ front.now ++ more.now) }
{
    bytes.strip_prefix(front)
}

/// What follows this byte at the front; None where another stands there, or none.
pub fn behind_mark(bytes: &[u8], mark: u8) -> Option<&[u8]>
    ensures { MatchOption result ((more : List ℕ) → ¬ (bytes.now ≡ mark ∷ more))
        (λ more. bytes.now ≡ mark ∷ more.now) }
{
    let (first, more) = bytes.split_first()?;
    if *first == mark { Some(more) } else { None }
}

/// Whether the bytes are this text.
pub fn is_text(bytes: &[u8], text: &[u8]) -> bool
    ensures { MatchBool result (bytes.now ≡ text.now) (¬ (bytes.now ≡ text.now)) }
{
    bytes == text
}
