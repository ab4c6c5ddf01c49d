//! The words that have numbers.
ghost use Rattle.std.specs.Prelude.{◌≡◌, ◌≤◌, ◌<◌, ◌^◌, ◌++◌, map, take, length, IfOk, All};
ghost use Rattle.abc_text.specs.Meanings.{names_behind, AreDifferent};
ghost use Rattle.abc_text.specs.Spelling.{IsWord};
ghost use Rattle.abc_lexemes.specs.Lexed as spec;

use crate::lexed::Lexed;
use abc_grammar::Lexeme;
use abc_lexer::Names;
use abc_value::{List, NoMemory, ShortText};
use std::alloc::Global;

/// The names with their places as numbers.
pub fn known_names<'t>(alloc: Global, names: &'t [ShortText]) -> Result<Names<'t>, NoMemory>
    requires different { AreDifferent names.now }
    requires few { length names.now < 2 ^ 32 }
    ensures { IfOk result (λ n. n ≡ names.now) }
{
    let mut known = Names::new(alloc);
    for name in names {
        known.number(name.bytes())?;
    }
    Ok(known)
}

/// A word as a text. No word is longer than a text.
fn word_text(word: &[u8]) -> ShortText
    requires { IsWord word.now }
    ensures { result ≡ word.now }
{
    ShortText::from_bytes(word).unwrap()
}

/// The words as texts.
fn texts(alloc: Global, words: &[&[u8]]) -> Result<List<ShortText>, NoMemory>
    requires { All (λ w. IsWord w.now) words.now }
    ensures { IfOk result (λ ts. ts ≡ map (λ w. w.now) words.now) }
{
    let mut made = List::new(alloc);
    for word in words {
        made.push(word_text(*word))?;
    }
    Ok(made)
}

/// One more than the number of the lexeme's name; 0 where it has none.
fn named_end(lexeme: &Lexeme) -> usize
    ensures { result ≡ spec.named_end lexeme.now }
{
    match lexeme {
        Lexeme::Name(name) => name.0 as usize + 1,
        Lexeme::Variable(name) => name.0 as usize + 1,
        _ => 0,
    }
}

/// How many words have numbers behind these lexemes, where `known` have them before.
fn most_named(known: usize, lexemes: &[Lexeme]) -> usize
    ensures { result ≡ spec.most_named known lexemes.now }
{
    let mut most = known;
    for lexeme in lexemes {
        most = most.max(named_end(lexeme));
    }
    most
}

/// The words that have numbers once the first `count` tokens of the text have been read.
fn first_words<'a, 't>(
    names: &[ShortText],
    bytes: &[u8],
    lexed: &'a Lexed<'t>,
    count: usize,
) -> &'a [&'t [u8]]
    requires lexed { spec.IsLexed names.now bytes.now lexed.now }
    requires within { count ≤ length lexed.now.tokens }
    ensures { map (λ w. w.now) result.now ≡ names_behind names.now bytes.now (take count lexed.now.tokens) }
{
    let (front, _) = lexed.lexemes.as_slice().split_at(count);
    let most = most_named(names.len(), front);
    let (words, _) = lexed.names.words().split_at(most);
    words
}

/// The words that the first `count` tokens of the text name first, behind the names that had numbers.
pub fn new_names(
    alloc: Global,
    names: &[ShortText],
    bytes: &[u8],
    lexed: &Lexed<'_>,
    count: usize,
) -> Result<List<ShortText>, NoMemory>
    requires lexed { spec.IsLexed names.now bytes.now lexed.now }
    requires within { count ≤ length lexed.now.tokens }
    ensures { IfOk result (λ more. names_behind names.now bytes.now (take count lexed.now.tokens) ≡ names.now ++ more) }
{
    let words = first_words(names, bytes, lexed, count);
    let (_, more) = words.split_at(names.len());
    texts(alloc, more)
}
