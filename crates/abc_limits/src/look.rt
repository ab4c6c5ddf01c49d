//! What a token is, as far as the limits need it.
ghost use Rattle.std.specs.Prelude.{◌≡◌};
ghost use Rattle.abc_grammar.specs.Limits as limit;
ghost use Rattle.abc_grammar.specs.Sizes as sizes;
ghost use Rattle.abc_limits.specs.Rooms as rooms;

use abc_grammar::{Keyword, Lexeme, Mark};

/// Whether it opens a bracket.
pub fn opens(lexeme: &Lexeme) -> bool
    ensures { result ≡ limit.opens lexeme.now }
{
    match lexeme {
        Lexeme::Mark(Mark::OpenRound) => true,
        Lexeme::Mark(Mark::OpenSquare) => true,
        Lexeme::Mark(Mark::OpenCurly) => true,
        _ => false,
    }
}

/// Whether it closes a bracket.
pub fn closes(lexeme: &Lexeme) -> bool
    ensures { result ≡ limit.closes lexeme.now }
{
    match lexeme {
        Lexeme::Mark(Mark::CloseRound) => true,
        Lexeme::Mark(Mark::CloseSquare) => true,
        Lexeme::Mark(Mark::CloseCurly) => true,
        _ => false,
    }
}

/// Whether it may open a set literal.
pub fn opens_set(lexeme: &Lexeme) -> bool
    ensures { result ≡ sizes.opens_set lexeme.now }
{
    match lexeme {
        Lexeme::Mark(Mark::OpenCurly) => true,
        _ => false,
    }
}

/// Whether it may close a set literal.
pub fn closes_set(lexeme: &Lexeme) -> bool
    ensures { result ≡ sizes.closes_set lexeme.now }
{
    match lexeme {
        Lexeme::Mark(Mark::CloseCurly) => true,
        _ => false,
    }
}

/// Whether it may end an operand.
pub fn ends_operand(lexeme: &Lexeme) -> bool
    ensures { result ≡ sizes.ends_operand lexeme.now }
{
    match lexeme {
        Lexeme::Name(_) => true,
        Lexeme::Variable(_) => true,
        Lexeme::Number(_) => true,
        Lexeme::Text(_) => true,
        Lexeme::Keyword(Keyword::True) => true,
        Lexeme::Keyword(Keyword::False) => true,
        Lexeme::Keyword(Keyword::None) => true,
        Lexeme::Mark(Mark::CloseRound) => true,
        Lexeme::Mark(Mark::CloseCurly) => true,
        _ => false,
    }
}

pub fn is_minus(lexeme: &Lexeme) -> bool
    ensures { result ≡ sizes.is_minus lexeme.now }
{
    match lexeme {
        Lexeme::Mark(Mark::Minus) => true,
        _ => false,
    }
}

pub fn is_number(lexeme: &Lexeme) -> bool
    ensures { result ≡ sizes.is_number lexeme.now }
{
    match lexeme {
        Lexeme::Number(_) => true,
        _ => false,
    }
}

pub fn is_comma(lexeme: &Lexeme) -> bool
    ensures { result ≡ rooms.is_comma lexeme.now }
{
    match lexeme {
        Lexeme::Mark(Mark::Comma) => true,
        _ => false,
    }
}

/// Whether it closes a round bracket.
pub fn closes_round(lexeme: &Lexeme) -> bool
    ensures { result ≡ rooms.closes_round lexeme.now }
{
    match lexeme {
        Lexeme::Mark(Mark::CloseRound) => true,
        _ => false,
    }
}

/// Whether it is the word `set`.
pub fn is_set(lexeme: &Lexeme) -> bool
    ensures { result ≡ rooms.is_set lexeme.now }
{
    match lexeme {
        Lexeme::Keyword(Keyword::Set) => true,
        _ => false,
    }
}

/// Whether it is an `@` or a `.`, which stand behind no `set(..)`.
pub fn ends_list(lexeme: &Lexeme) -> bool
    ensures { result ≡ rooms.ends_list lexeme.now }
{
    match lexeme {
        Lexeme::Mark(Mark::At) => true,
        Lexeme::Mark(Mark::Dot) => true,
        _ => false,
    }
}

/// Whether it starts a definition or a component.
pub fn starts_item(lexeme: &Lexeme) -> bool
    ensures { result ≡ limit.starts_item lexeme.now }
{
    match lexeme {
        Lexeme::Keyword(Keyword::Def) => true,
        Lexeme::Keyword(Keyword::Comp) => true,
        _ => false,
    }
}
