//! From bytes to lexemes.
ghost use Rattle.std.specs.Prelude.{◌≤◌, ◌<◌, ◌+◌, ◌^◌, length, IfOk};
ghost use Rattle.abc_text.specs.Meanings.{AreDifferent};
ghost use Rattle.abc_lexemes.specs.Lexed.{IsLexed};

use crate::lexeme::lexeme;
use crate::naming::known_names;
use abc_grammar::Lexeme;
use abc_lexer::{Fault, Found, Names, Token, read_token};
use abc_text::Before;
use abc_value::{List, NoMemory, ShortText};
use std::alloc::Global;

/// A token of usual code has about this many bytes, with the blanks before it; room is made for so many tokens.
const USUAL: usize = 4;

/// A text as its tokens up to the first bad one, that one, what the tokens stand for, and the words that
/// have numbers, each at its number.
#[derive(Drop)]
pub struct Lexed<'t> {
    pub tokens: List<Token>,
    pub fault: Option<Fault>,
    pub lexemes: List<Lexeme>,
    pub names: Names<'t>,
}

/// The text as lexemes. Its words are numbered on from `names`, as they are first met.
pub fn read_lexemes<'t>(
    alloc: Global,
    names: &'t [ShortText],
    bytes: &'t [u8],
) -> Result<Lexed<'t>, NoMemory>
    requires different { AreDifferent names.now }
    requires few { length names.now + length bytes.now < 2 ^ 32 }
    ensures { IfOk result (λ l. IsLexed names.now bytes.now l) }
{
    let mut known = known_names(alloc, names)?;
    let mut tokens = List::with_capacity(alloc, bytes.len() / USUAL)?;
    let mut lexemes = List::with_capacity(alloc, bytes.len() / USUAL)?;
    let mut before = Before::Open;
    let mut rest = bytes;
    'tokens: loop {
        match read_token(bytes.len(), before, rest) {
            Found::End => {
                return Ok(Lexed {
                    tokens,
                    fault: None,
                    lexemes,
                    names: known,
                });
            }
            Found::Bad(fault) => {
                return Ok(Lexed {
                    tokens,
                    fault: Some(fault),
                    lexemes,
                    names: known,
                });
            }
            Found::Good(read) => {
                let meant = lexeme(alloc, read.item, &mut known)?;
                tokens.push(read.token)?;
                lexemes.push(meant)?;
                before = read.after;
                rest = read.left;
            }
        }
    }
}
