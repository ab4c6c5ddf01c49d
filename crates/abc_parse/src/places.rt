//! Where the names of definitions and components stand.
ghost use Rattle.std.specs.Prelude.{◌≡◌, ◌++◌, [], ◌∷◌, false, IfOk, OnOk, if◌then◌else◌};
ghost use Rattle.abc_grammar.specs.Accepted.{places_behind};
ghost use Rattle.abc_parse.specs.WholeTexts.{begins};

use abc_grammar::{Keyword, Lexeme};
use abc_lexer::Token;
use abc_value::{List, NoMemory};
use std::alloc::Global;

/// What stands in a program.
#[derive(Clone, Copy, Debug, PartialEq, Eq)]
pub enum Kind {
    Definition,
    Component,
}

/// Whether the lexeme is the word with which one of this kind begins.
fn begins(kind: Kind, lexeme: &Lexeme) -> bool
    ensures { result ≡ begins kind lexeme.now }
{
    match (kind, lexeme) {
        (Kind::Definition, Lexeme::Keyword(Keyword::Def)) => true,
        (Kind::Component, Lexeme::Keyword(Keyword::Comp)) => true,
        _ => false,
    }
}

/// Adds the place of a token that stands right behind such a word.
fn push_place(found: &mut List<u32>, behind: bool, token: &Token) -> Result<(), NoMemory>
    ensures { OnOk result (found.new ≡ (if behind then found.old ++ token.now.place ∷ [] else found.old)) }
{
    if behind {
        found.push(token.place)?;
    }
    Ok(())
}

/// The places of the tokens that stand right behind the word with which one of this kind begins.
pub fn places(
    alloc: Global,
    kind: Kind,
    lexemes: &[Lexeme],
    tokens: &[Token],
) -> Result<List<u32>, NoMemory>
    ensures { IfOk result (λ ps. ps ≡ places_behind (begins kind) false lexemes.now tokens.now) }
{
    let mut found = List::new(alloc);
    let mut behind = false;
    let mut lexemes = lexemes;
    let mut tokens = tokens;
    'tokens: while let Some((lexeme, more_lexemes)) = lexemes.split_first() {
        let Some((token, more_tokens)) = tokens.split_first() else {
            return Ok(found);
        };
        push_place(&mut found, behind, token)?;
        behind = begins(kind, lexeme);
        lexemes = more_lexemes;
        tokens = more_tokens;
    }
    Ok(found)
}
