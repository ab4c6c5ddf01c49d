//! The limits of a text above its tokens, each stated here alone.
ghost use Rattle.std.specs.Prelude.{◌≡◌};

/// At most this many of `(`, `[` and `{` are open at once.
pub const MOST_OPEN: usize = 100;

/// A definition or a component has at most this many tokens.
pub const MOST_TOKENS: usize = 2048;

/// The tuple of an output has at most this many expressions, and an input this many variables.
pub const MOST_PARTS: usize = 8;

/// A set literal has at most this many scalars as it is written, equal ones counted each.
pub const MOST_WRITTEN: usize = 256;

/// The limits of a text by their numbers.
pub fn text_limits()
    ensures most_open { MOST_OPEN ≡ 100 }
    ensures most_tokens { MOST_TOKENS ≡ 2048 }
    ensures most_parts { MOST_PARTS ≡ 8 }
    ensures most_written { MOST_WRITTEN ≡ 256 }
{}
