//! The limits of tokens, each stated here alone. How many bytes a text stands for is the limit of a text
//! value (abc_value).
ghost use Rattle.std.specs.Prelude.{◌≡◌, ◌^◌};

/// A word, and the word of a variable, has at most this many bytes.
pub const MOST_NAME: usize = 32;

/// The greatest number that may be written, which stands right behind a sign alone. Elsewhere the
/// greatest is one less.
pub const MOST_NUMBER: u64 = 1 << 63;

/// The limits of tokens by their numbers.
pub fn token_limits()
    ensures most_name { MOST_NAME ≡ 32 }
    ensures most_number { MOST_NUMBER ≡ 2 ^ 63 }
{}
