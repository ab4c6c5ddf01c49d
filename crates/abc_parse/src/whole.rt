//! A predicate at the front of a text.
ghost use Rattle.std.specs.Prelude.{◌≡◌, ◌<◌, ◌≤◌, ◌+◌, ◌^◌, [], ◌∷◌, ◌++◌, drop, take, map, length, IfOk, IfErr, OnErr, OnOk, All, None};
ghost use Rattle.abc_pred.specs.Standing.{pred_of};
ghost use Rattle.abc_text.specs.Meanings.{StandsIn, names_behind, AreDifferent};
ghost use Rattle.abc_text.specs.Spelling.{IsWord};
ghost use Rattle.abc_text.specs.Tokens.{Reads};
ghost use Rattle.abc_grammar.specs.Lexemes as meaning;
ghost use Rattle.abc_grammar.specs.Refusals as refusal;
ghost use Rattle.abc_grammar.specs.Fronts as fronts;
ghost use Rattle.abc_grammar.specs.Fronts.{BeginsWithPred};
ghost use Rattle.abc_parse.specs.Reading.{IsBegun, IsPredRefusal, IsRefusedIfNone};

use crate::front::{Front, front_of};
use abc_cause::Cause;
use abc_lexemes::{Lexed, new_names, read_lexemes};
use abc_lexer::{Fault, TextRefusal, Token};
use abc_pred::Pred;
use abc_value::{List, NoMemory, ShortText};
use std::alloc::Global;

/// What a text begins with.
#[derive(Drop)]
enum Begun {
    /// A predicate, the number of bytes up to its end, and the words that it names first.
    Pred(Pred, usize, List<ShortText>),
    /// No front is a predicate, for this cause at this place.
    Refused(u32, Cause),
}

/// Where the first `count` tokens end.
fn front_end(tokens: &[Token], count: usize) -> usize
    ensures { result ≡ fronts.front_end tokens.now count }
{
    match tokens.get(count.saturating_sub(1)) {
        Some(token) => token.place as usize + token.len as usize,
        None => 0,
    }
}

/// Where a token of a text of this size begins; the bad token and the end count as one more.
pub fn place_at(lexed: &Lexed<'_>, size: usize, number: usize) -> u32
    requires { size < 2 ^ 32 }
    ensures { result ≡ refusal.place_at lexed.now.tokens lexed.now.fault size number }
{
    match lexed.tokens.get(number) {
        Some(token) => token.place,
        None => match lexed.fault {
            Some(fault) => fault.place,
            None => size as u32,
        },
    }
}

pub fn cause_at_end(fault: Option<Fault>) -> Cause
    ensures { result ≡ refusal.end_cause fault }
{
    match fault {
        Some(fault) => fault.cause,
        None => Cause::Syntax,
    }
}

/// The longest front of the text that is a predicate within its limits, or the first thing wrong.
fn front_of_text(alloc: Global, bytes: &[u8], names: &[ShortText]) -> Result<Begun, NoMemory>
    requires different { AreDifferent names.now }
    requires few { length names.now + length bytes.now < 2 ^ 32 }
    ensures { IfOk result (λ b. IsBegun names.now bytes.now b) }
{
    let lexed = read_lexemes(alloc, names, bytes)?;
    match front_of(alloc, lexed.lexemes.as_slice())? {
        Front::Pred(pred, count) => {
            let more = new_names(alloc, names, bytes, &lexed, count)?;
            let size = front_end(lexed.tokens.as_slice(), count);
            Ok(Begun::Pred(pred, size, more))
        }
        Front::Refused(number, cause) => {
            Ok(Begun::Refused(place_at(&lexed, bytes.len(), number), cause))
        }
        Front::Ends => {
            let place = place_at(&lexed, bytes.len(), lexed.lexemes.len());
            Ok(Begun::Refused(place, cause_at_end(lexed.fault)))
        }
    }
}

/// The longest front of the text that is a predicate within its limits, with its number of bytes. The
/// words that it names first go to the end of `names`; else `names` stays as it was.
///
/// The limits are those of a text: 100 open brackets, counted from the first token, 256 scalars written
/// in a set literal, and 2,048 tokens, a literal counting as one. It is refused exactly where no front
/// is one: at the first token at which something is wrong, for the first cause there.
pub fn parse_pred(
    alloc: Global,
    bytes: &[u8],
    names: &mut List<ShortText>,
) -> Result<(Pred, usize), TextRefusal>
    requires different { AreDifferent names.old }
    requires few { length names.old + length bytes.now < 2 ^ 32 }
    ensures found { IfOk result (λ r. BeginsWithPred names.old bytes.now (pred_of r.0) r.1 names.new) }
    ensures refused { IfErr result (IsPredRefusal names.old bytes.now) }
    ensures exact { IsRefusedIfNone names.old bytes.now result }
    ensures same { OnErr result (names.new ≡ names.old) }
    ensures different { AreDifferent names.new }
{
    match front_of_text(alloc, bytes, names.as_slice()) {
        Err(NoMemory) => Err(TextRefusal::NoMemory),
        Ok(Begun::Refused(place, cause)) => Err(TextRefusal::Refused { place, cause }),
        Ok(Begun::Pred(pred, size, more)) => match names.extend_from_slice(more.as_slice()) {
            Ok(()) => Ok((pred, size)),
            Err(NoMemory) => Err(TextRefusal::NoMemory),
        },
    }
}
