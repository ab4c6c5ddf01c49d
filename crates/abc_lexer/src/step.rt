//! The token at the front of the bytes, with what it is.
ghost use Rattle.std.specs.Prelude.{◌≡◌, drop};
ghost use Rattle.abc_text.specs.Tokens as spec;
ghost use Rattle.abc_lexer.specs.Items.{kind_of, IsStep};

use crate::run::{capped_decimal, digits_len, is_digit, is_letter, text_lens, word_len};
use abc_cause::Cause;
use abc_text::{Before, Keyword, MOST_NAME, MOST_NUMBER, Mark, TokenKind, keyword_at, mark_at};
use abc_value::{LONGEST_TEXT, behind_first};

/// What a good token is.
#[derive(Clone, Copy)]
pub enum Item<'t> {
    Keyword(Keyword),
    /// A word that is no keyword.
    Name(&'t [u8]),
    /// The word behind a `$`.
    Variable(&'t [u8]),
    /// The number that the digits write.
    Number(u64),
    /// What stands behind the opening quote of a text, up to and with the closing one.
    Text(&'t [u8]),
    Mark(Mark),
}

impl<'t> Item<'t> {
    /// The kind of the token.
    pub fn kind(&self) -> TokenKind
        ensures { result ≡ kind_of self.now }
    {
        match self {
            Item::Keyword(_) => TokenKind::Word,
            Item::Name(_) => TokenKind::Word,
            Item::Variable(_) => TokenKind::Variable,
            Item::Number(_) => TokenKind::Number,
            Item::Text(_) => TokenKind::Text,
            Item::Mark(_) => TokenKind::Symbol,
        }
    }
}

/// What stands at the front of the bytes.
#[derive(Clone, Copy)]
pub enum Step<'t> {
    /// Nothing: the text ends.
    End,
    /// A bad token.
    Bad(Cause),
    /// A token of this length in bytes.
    Good(Item<'t>, usize),
}

fn word_step(bytes: &[u8]) -> Step<'_>
    ensures { IsStep (spec.word_token bytes.now) bytes.now result }
{
    let len = word_len(bytes);
    if len > MOST_NAME {
        return Step::Bad(Cause::LongName);
    }
    let (word, _) = bytes.split_at(len);
    match keyword_at(word) {
        Some(keyword) => Step::Good(Item::Keyword(keyword), len),
        None => Step::Good(Item::Name(word), len),
    }
}

fn variable_step(bytes: &[u8]) -> Step<'_>
    ensures { IsStep (spec.variable_token (drop 1 bytes.now)) bytes.now result }
{
    let more = behind_first(bytes);
    match more.first() {
        Some(first) if is_letter(*first) => {
            let len = word_len(more);
            if len > MOST_NAME {
                return Step::Bad(Cause::LongName);
            }
            let (word, _) = more.split_at(len);
            Step::Good(Item::Variable(word), len + 1)
        }
        _ => Step::Bad(Cause::BadByte),
    }
}

/// The greatest number that may stand here.
fn greatest(before: Before) -> u64
    ensures { result ≡ spec.greatest before }
{
    match before {
        Before::Sign => MOST_NUMBER,
        Before::Open => MOST_NUMBER - 1,
        Before::Operand => MOST_NUMBER - 1,
    }
}

#[tactic(auto, unfolding(abc_text::specs::Tokens::number_token))]
fn number_step(before: Before, bytes: &[u8]) -> Step<'_>
    ensures { IsStep (spec.number_token before bytes.now) bytes.now result }
{
    let len = digits_len(bytes);
    let number = capped_decimal(&bytes[..len]);
    if number <= greatest(before) {
        Step::Good(Item::Number(number), len)
    } else {
        Step::Bad(Cause::WideNumber)
    }
}

#[tactic(auto, unfolding(abc_text::specs::Tokens::text_token))]
fn text_step(bytes: &[u8]) -> Step<'_>
    ensures { IsStep (spec.text_token (drop 1 bytes.now)) bytes.now result }
{
    let more = behind_first(bytes);
    match text_lens(more) {
        None => Step::Bad(Cause::BadText),
        Some((len, size)) => {
            if size > LONGEST_TEXT {
                return Step::Bad(Cause::LongText);
            }
            let (text, _) = more.split_at(len);
            Step::Good(Item::Text(text), len + 1)
        }
    }
}

/// A symbol of one byte, or else of two.
fn symbol_step(bytes: &[u8]) -> Step<'_>
    ensures { IsStep (spec.symbol_token bytes.now) bytes.now result }
{
    if bytes.is_empty() {
        return Step::Bad(Cause::BadByte);
    }
    let (one, _) = bytes.split_at(1);
    match mark_at(one) {
        Some(mark) => Step::Good(Item::Mark(mark), 1),
        None => two_step(bytes),
    }
}

fn two_step(bytes: &[u8]) -> Step<'_>
    ensures { IsStep (spec.two_token bytes.now) bytes.now result }
{
    if bytes.len() < 2 {
        return Step::Bad(Cause::BadByte);
    }
    let (two, _) = bytes.split_at(2);
    match mark_at(two) {
        Some(mark) => Step::Good(Item::Mark(mark), 2),
        None => Step::Bad(Cause::BadByte),
    }
}

/// What stands at the front of the bytes.
#[tactic(auto, unfolding(abc_text::specs::Tokens::next))]
pub fn next_step(before: Before, bytes: &[u8]) -> Step<'_>
    ensures { IsStep (spec.next before bytes.now) bytes.now result }
{
    let Some(first) = bytes.first() else {
        return Step::End;
    };
    if is_letter(*first) {
        word_step(bytes)
    } else if *first == b'$' {
        variable_step(bytes)
    } else if is_digit(*first) {
        number_step(before, bytes)
    } else if *first == b'"' {
        text_step(bytes)
    } else {
        symbol_step(bytes)
    }
}
