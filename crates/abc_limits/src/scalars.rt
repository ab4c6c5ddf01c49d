//! The scalars that are written in a set literal.
ghost use Rattle.std.specs.Prelude.{◌≡◌, ◌<◌, ◌≤◌, ◌+◌, ◌^◌};
ghost use Rattle.abc_value.specs.Values.{fits_64};
ghost use Rattle.abc_limits.specs.Written as spec;

use crate::look::opens_set;
use abc_grammar::{Keyword, Lexeme, MOST_WRITTEN, Mark};

/// How many scalars of a set literal stand before a token.
#[derive(Clone, Copy, Debug)]
pub enum Written {
    /// The token is no part of a set literal's list.
    Outside,
    /// Behind the brace or a comma.
    Expects(usize),
    /// Behind a sign.
    Signed(usize),
    /// Behind a scalar, which is counted.
    Counted(usize),
}

/// Behind a scalar, if it is one.
fn counted(n: usize, is_scalar: bool) -> Written
    requires { n < 2 ^ 63 }
    ensures value { result ≡ spec.counted n is_scalar }
    ensures grows { spec.scalars_of result ≤ n + 1 }
{
    if is_scalar {
        Written::Counted(n + 1)
    } else {
        Written::Outside
    }
}

/// What a token comes to where a scalar is to begin.
fn scalar_begun(n: usize, lexeme: &Lexeme) -> Written
    requires { n < 2 ^ 63 }
    ensures value { result ≡ spec.scalar_begun n lexeme.now }
    ensures grows { spec.scalars_of result ≤ n + 1 }
{
    match lexeme {
        Lexeme::Number(k) => counted(n, *k < 1 << 63),
        Lexeme::Mark(Mark::Minus) => Written::Signed(n),
        Lexeme::Text(_) => Written::Counted(n + 1),
        Lexeme::Keyword(Keyword::True) => Written::Counted(n + 1),
        Lexeme::Keyword(Keyword::False) => Written::Counted(n + 1),
        _ => Written::Outside,
    }
}

/// What a token comes to behind a sign.
fn scalar_signed(n: usize, lexeme: &Lexeme) -> Written
    requires { n < 2 ^ 63 }
    ensures value { result ≡ spec.scalar_signed n lexeme.now }
    ensures grows { spec.scalars_of result ≤ n + 1 }
{
    match lexeme {
        Lexeme::Number(k) => counted(n, *k <= 1 << 63),
        _ => Written::Outside,
    }
}

/// What a token comes to behind a scalar.
fn scalar_ended(n: usize, lexeme: &Lexeme) -> Written
    ensures value { result ≡ spec.scalar_ended n lexeme.now }
    ensures grows { spec.scalars_of result ≤ n }
{
    match lexeme {
        Lexeme::Mark(Mark::Comma) => Written::Expects(n),
        _ => Written::Outside,
    }
}

/// What stands behind a token.
pub fn written_behind(written: Written, lexeme: &Lexeme) -> Written
    requires { spec.scalars_of written < 2 ^ 63 }
    ensures value { result ≡ spec.written_behind written lexeme.now }
    ensures grows { spec.scalars_of result ≤ spec.scalars_of written + 1 }
{
    if opens_set(lexeme) {
        return Written::Expects(0);
    }
    match written {
        Written::Outside => Written::Outside,
        Written::Expects(n) => scalar_begun(n, lexeme),
        Written::Signed(n) => scalar_signed(n, lexeme),
        Written::Counted(n) => scalar_ended(n, lexeme),
    }
}

/// Whether the next token begins the first scalar too many.
pub fn is_full(written: Written) -> bool
    ensures { result ≡ spec.is_full written }
{
    match written {
        Written::Expects(n) => n == MOST_WRITTEN,
        Written::Outside => false,
        Written::Signed(_) => false,
        Written::Counted(_) => false,
    }
}
