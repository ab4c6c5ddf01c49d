//! The front of a list of bytes.
ghost use Rattle.std.specs.Prelude.{◌≡◌, drop, slice_index, MatchBool};
ghost use Rattle.abc_value.specs.Literals.{BeginsWith};

/// The first byte, 0 where there is none.
pub fn first_byte(bytes: &[u8]) -> u8
    ensures { result ≡ slice_index bytes.now 0 }
{
    if bytes.is_empty() { 0 } else { bytes[0] }
}

/// The bytes behind the first.
pub fn behind_first(bytes: &[u8]) -> &[u8]
    ensures { result.now ≡ drop 1 bytes.now }
{
    match bytes.split_first() {
        Some((_, rest)) => rest,
        None => bytes,
    }
}

/// Whether the bytes begin with a word.
pub fn begins_with(bytes: &[u8], word: &[u8]) -> bool
    ensures { MatchBool result (BeginsWith bytes.now word.now) (¬ (BeginsWith bytes.now word.now)) }
{
    bytes.starts_with(word)
}
