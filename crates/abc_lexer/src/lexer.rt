//! The tokens of a text.
ghost use Rattle.std.specs.Prelude.{◌≡◌, ◌≤◌, ◌<◌, ◌^◌, ◌+◌, length, IfOk, IfErr, All, Some, None};
ghost use Rattle.abc_text.specs.Tokens as spec;
ghost use Rattle.abc_text.specs.Meanings.{StandsIn};
ghost use Rattle.abc_lexer.specs.Items.{IsFound};
ghost use Rattle.abc_lexer.specs.Scanning as scanning;

use crate::refusal::TextRefusal;
use crate::run::skip;
use crate::signs::stands_after;
use crate::step::{Item, Step, next_step};
use abc_text::{Before, Fault, Token};
use abc_value::{List, NoMemory};
use std::alloc::Global;

/// The next token of a text, with what it is.
#[derive(Clone, Copy)]
pub struct Read<'t> {
    pub token: Token,
    pub item: Item<'t>,
    /// What stands before the token behind it.
    pub after: Before,
    /// What is left of the text behind it.
    pub left: &'t [u8],
}

/// What comes next in a text.
#[derive(Clone, Copy)]
pub enum Found<'t> {
    End,
    Bad(Fault),
    Good(Read<'t>),
}

/// What comes next in these bytes, which reach to the end of a text of `size` bytes, where `before`
/// stands before them.
pub fn read_token(size: usize, before: Before, bytes: &[u8]) -> Found<'_>
    requires within { length bytes.now ≤ size }
    requires small { size < 2 ^ 32 }
    ensures { IsFound size before bytes.now result }
{
    let front = skip(bytes);
    let place = (size - front.len()) as u32;
    match next_step(before, front) {
        Step::End => Found::End,
        Step::Bad(cause) => Found::Bad(Fault { place, cause }),
        Step::Good(item, len) => {
            let (_, left) = front.split_at(len);
            let kind = item.kind();
            Found::Good(Read {
                token: Token {
                    kind,
                    place,
                    len: len as u32,
                },
                item,
                after: stands_after(before, &item),
                left,
            })
        }
    }
}

/// The good tokens of a text up to its first bad one, and that one; no fault where all are good.
#[derive(Debug, Drop)]
pub struct Scanned {
    pub tokens: List<Token>,
    pub fault: Option<Fault>,
}

/// The tokens up to the first bad one, and that one.
pub fn scan(alloc: Global, bytes: &[u8]) -> Result<Scanned, NoMemory>
    requires { length bytes.now < 2 ^ 32 }
    ensures reads { IfOk result (λ s. spec.Reads bytes.now s.tokens s.fault) }
    ensures stand { IfOk result (λ s. All (StandsIn bytes.now) s.tokens) }
{
    let mut tokens = List::new(alloc);
    let mut before = Before::Open;
    let mut rest = bytes;
    'tokens: loop {
        match read_token(bytes.len(), before, rest) {
            Found::End => {
                return Ok(Scanned {
                    tokens,
                    fault: None,
                });
            }
            Found::Bad(fault) => {
                return Ok(Scanned {
                    tokens,
                    fault: Some(fault),
                });
            }
            Found::Good(read) => {
                tokens.push(read.token)?;
                before = read.after;
                rest = read.left;
            }
        }
    }
}

/// The tokens of a text, where none is bad, or else its bad token.
fn verdict(scanned: Scanned) -> Result<List<Token>, Fault>
    ensures good { IfOk result (λ ts. (scanned.fault ≡ None) × (ts ≡ scanned.tokens)) }
    ensures bad { IfErr result (λ fault. scanned.fault ≡ Some fault) }
{
    match scanned.fault {
        None => Ok(scanned.tokens),
        Some(fault) => Err(fault),
    }
}

/// The tokens of the text in order, or its first bad token. Whether a token is bad is decided without
/// memory; only the list of the good ones takes it.
pub fn tokens(alloc: Global, bytes: &[u8]) -> Result<List<Token>, TextRefusal>
    requires { length bytes.now < 2 ^ 32 }
    ensures ok { IfOk result (λ ts. spec.AreTokens bytes.now ts) }
    ensures stand { IfOk result (λ ts. All (StandsIn bytes.now) ts) }
    ensures refused { IfErr result (scanning.IsRefusal bytes.now) }
    ensures exact { scanning.IsRefusedIfBad bytes.now result }
{
    match scan(alloc, bytes) {
        Err(NoMemory) => Err(TextRefusal::NoMemory),
        Ok(scanned) => match verdict(scanned) {
            Ok(tokens) => Ok(tokens),
            Err(fault) => Err(TextRefusal::Refused {
                place: fault.place,
                cause: fault.cause,
            }),
        },
    }
}
