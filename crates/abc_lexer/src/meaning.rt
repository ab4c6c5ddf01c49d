//! What a token stands for.
ghost use Rattle.std.specs.Prelude.{◌≡◌, ◌≤◌, ◌<◌, ◌+◌, ◌^◌, ◌++◌, false, length, drop, All};
ghost use Rattle.std.specs.Option.{option_copied};
ghost use Rattle.abc_text.specs.declared.lexical.TokenKind.TheVariants.{Number as NumberKind, Text as TextKind};
ghost use Rattle.abc_text.specs.Tokens.{text_value};
ghost use Rattle.abc_text.specs.Spelling.{IsTextValue};
ghost use Rattle.abc_text.specs.Meanings as spec;

use crate::run::capped_decimal;
use abc_text::{Token, TokenKind, keyword_at};
use abc_value::{ShortText, behind_first};

/// The bytes of a token of the text.
pub fn spelling(bytes: &[u8], token: Token) -> &[u8]
    requires { spec.StandsIn bytes.now token }
    ensures value { result.now ≡ spec.spelling bytes.now token }
    ensures len { length result.now ≡ token.len }
{
    let (_, back) = bytes.split_at(token.place as usize);
    let (front, _) = back.split_at(token.len as usize);
    front
}

/// The number that a number token of the text writes: at most 2^63.
pub fn number(bytes: &[u8], token: Token) -> u64
    requires stands { spec.StandsIn bytes.now token }
    requires kind { token.kind ≡ NumberKind }
    ensures value { result ≡ spec.number_of bytes.now token }
    ensures small { result ≤ 2 ^ 63 }
{
    capped_decimal(spelling(bytes, token))
}

/// The text that stands behind an opening quote, without the backslashes before `"` and `\`.
pub fn unescaped(bytes: &[u8]) -> ShortText
    requires { IsTextValue (text_value false bytes.now) }
    ensures { result ≡ text_value false bytes.now }
{
    let mut held = ShortText::empty();
    let mut rest = bytes;
    let mut escape = false;
    while let Some((first, more)) = rest.split_first() {
        if escape {
            escape = false;
            held.push(*first);
        } else if *first == b'"' {
            return held;
        } else if *first == b'\\' {
            escape = true;
        } else {
            held.push(*first);
        }
        rest = more;
    }
    held
}

/// The text that a text token stands for.
pub fn text(bytes: &[u8], token: Token) -> ShortText
    requires stands { spec.StandsIn bytes.now token }
    requires kind { token.kind ≡ TextKind }
    ensures { result ≡ spec.text_at bytes.now token }
{
    unescaped(behind_first(spelling(bytes, token)))
}

/// The word that a token names: that of a name, or of a variable without its `$`.
/// None for a keyword and for all other kinds.
pub fn named(bytes: &[u8], token: Token) -> Option<&[u8]>
    requires { spec.StandsIn bytes.now token }
    ensures { option_copied result ≡ spec.named bytes.now token }
{
    let word = spelling(bytes, token);
    match token.kind {
        TokenKind::Word => match keyword_at(word) {
            Some(_) => None,
            None => Some(word),
        },
        TokenKind::Variable => Some(behind_first(word)),
        TokenKind::Number => None,
        TokenKind::Text => None,
        TokenKind::Symbol => None,
    }
}
