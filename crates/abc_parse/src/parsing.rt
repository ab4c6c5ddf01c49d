//! A whole text.
ghost use Rattle.std.specs.Prelude.{◌≡◌, ◌<◌, ◌^◌, [], length, IfOk, IfErr, None};
ghost use Rattle.abc_lexemes.specs.Lexed.{IsLexed};
ghost use Rattle.abc_parse.specs.Programs.{IsFoundIn};
ghost use Rattle.abc_parse.specs.WholeTexts.{place_of, IsText, IsTextWith, IsParsed, IsTextRefusal, AnswersText};

use crate::places::{Kind, places};
use crate::program::Items;
use crate::reading::{Found, read_program};
use crate::whole::{cause_at_end, place_at};
use abc_cause::Cause;
use abc_checks::{CheckRefusal, Site, check};
use abc_lexemes::{Lexed, new_names, read_lexemes};
use abc_lexer::TextRefusal;
use abc_term::Program;
use abc_value::{List, NoMemory};
use std::alloc::Global;

/// Where the names of the definitions and components stand, in their order, and the text's length: places are
/// numbers of bytes before.
#[derive(Drop)]
pub struct Places {
    pub definitions: List<u32>,
    pub components: List<u32>,
    pub end: u32,
}

/// A program with the places of its names.
#[derive(Drop)]
pub struct Parsed {
    pub program: Program,
    pub places: Places,
}

/// What a text is, the checks aside.
#[derive(Drop)]
pub enum Text {
    Program(Parsed),
    /// It is none, for this cause at this place.
    Refused(u32, Cause),
}

/// The place of a name, or the text's end for the whole program. A fact of a definition or a component is one
/// that is there.
fn place_of(places: &Places, site: Site) -> u32
    ensures { result ≡ place_of places.now site }
{
    let found = match site {
        Site::Definition(number) => places.definitions.as_slice().get(number as usize),
        Site::Component(number) => places.components.as_slice().get(number as usize),
        Site::Whole => None,
    };
    match found {
        Some(place) => *place,
        None => places.end,
    }
}

/// A program of the grammar is parsed where no fact of the checks holds of it.
fn checked(alloc: Global, bytes: &[u8], parsed: Parsed) -> Result<Parsed, TextRefusal>
    requires few { length bytes.now < 2 ^ 32 }
    requires text { IsTextWith bytes.now parsed }
    ensures accepted { IfOk result (IsParsed bytes.now) }
    ensures refused { IfErr result (IsTextRefusal bytes.now) }
{
    match check(alloc, &parsed.program) {
        Ok(()) => Ok(parsed),
        Err(CheckRefusal::NoMemory) => Err(TextRefusal::NoMemory),
        Err(CheckRefusal::Bad(cause, site)) => Err(TextRefusal::Refused {
            place: place_of(&parsed.places, site),
            cause: Cause::Check(cause),
        }),
    }
}

/// The program of these definitions and components, with the places of its names.
fn whole_text(
    alloc: Global,
    bytes: &[u8],
    lexed: &Lexed<'_>,
    items: Items,
) -> Result<Parsed, NoMemory>
    requires few { length bytes.now < 2 ^ 32 }
    requires lexed { IsLexed [] bytes.now lexed.now }
    requires end { lexed.now.fault ≡ None }
    requires program { IsFoundIn lexed.now.lexemes (Found.Program items) }
    ensures { IfOk result (IsTextWith bytes.now) }
{
    let tokens = lexed.tokens.as_slice();
    let lexemes = lexed.lexemes.as_slice();
    let names = new_names(alloc, &[], bytes, lexed, tokens.len())?;
    let places = Places {
        definitions: places(alloc, Kind::Definition, lexemes, tokens)?,
        components: places(alloc, Kind::Component, lexemes, tokens)?,
        end: bytes.len() as u32,
    };
    let program = Program {
        names,
        components: items.components,
        definitions: items.definitions,
    };
    Ok(Parsed { program, places })
}

/// A text whose good tokens are this program: it is the program, or a bad token follows.
fn program_text(
    alloc: Global,
    bytes: &[u8],
    lexed: &Lexed<'_>,
    items: Items,
) -> Result<Text, NoMemory>
    requires few { length bytes.now < 2 ^ 32 }
    requires lexed { IsLexed [] bytes.now lexed.now }
    requires program { IsFoundIn lexed.now.lexemes (Found.Program items) }
    ensures { IfOk result (IsText bytes.now) }
{
    match lexed.fault {
        None => {
            let parsed = whole_text(alloc, bytes, lexed, items)?;
            Ok(Text::Program(parsed))
        }
        Some(fault) => {
            drop(items);
            Ok(Text::Refused(fault.place, fault.cause))
        }
    }
}

/// What a text is, the checks aside: a program within the limits, or the first thing wrong.
fn text_of(alloc: Global, bytes: &[u8]) -> Result<Text, NoMemory>
    requires few { length bytes.now < 2 ^ 32 }
    ensures { IfOk result (IsText bytes.now) }
{
    let lexed = read_lexemes(alloc, &[], bytes)?;
    match read_program(alloc, lexed.lexemes.as_slice())? {
        Found::Program(items) => program_text(alloc, bytes, &lexed, items),
        Found::Refused(number, cause) => {
            Ok(Text::Refused(place_at(&lexed, bytes.len(), number), cause))
        }
        Found::Ends => {
            let place = place_at(&lexed, bytes.len(), lexed.lexemes.len());
            Ok(Text::Refused(place, cause_at_end(lexed.fault)))
        }
    }
}

/// The program of a text, with the places of its names. The text is parsed exactly where it is of the grammar,
/// within the limits and without a fact of the checks; else it is refused: at the first token at which something
/// is wrong, for the first cause there, or where only a check speaks against it, at the name of the first
/// definition or component of the first fact, or for the whole program at the text's end.
pub fn parse(alloc: Global, bytes: &[u8]) -> Result<Parsed, TextRefusal>
    requires few { length bytes.now < 2 ^ 32 }
    ensures accepted { IfOk result (IsParsed bytes.now) }
    ensures refused { IfErr result (IsTextRefusal bytes.now) }
    ensures exact { AnswersText bytes.now result }
{
    match text_of(alloc, bytes) {
        Ok(Text::Program(parsed)) => checked(alloc, bytes, parsed),
        Ok(Text::Refused(place, cause)) => Err(TextRefusal::Refused { place, cause }),
        Err(NoMemory) => Err(TextRefusal::NoMemory),
    }
}
