//! Whole programs.
ghost use Rattle.std.specs.Prelude.{◌≡◌, [], ◌∷◌, map, length};
ghost use Rattle.abc_readers.specs.Programs as spec;
ghost use Rattle.abc_phrases.specs.Answers.{Answers};
ghost use Rattle.abc_parse.specs.Items.{plain_items};

use crate::items::{components, definitions};
use crate::words::{abc_word, header_number, semicolon};
use abc_cause::Cause;
use abc_phrases::{Parser, Stop};
use abc_term::{Component, Definition};
use abc_value::List;

/// The definitions and the components of a program.
#[derive(Drop)]
pub struct Items {
    pub definitions: List<Definition>,
    pub components: List<Component>,
}

/// `abc 1 ;` and the definitions and components behind it.
fn program(parser: &mut Parser<'_>) -> Result<Items, Stop>
    ensures reads { Answers plain_items (spec.program parser.old.rest.lexemes.now) result parser.new.rest.lexemes.now }
{
    abc_word(parser)?;
    header_number(parser)?;
    semicolon(parser)?;
    let definitions = definitions(parser)?;
    let components = components(parser)?;
    Ok(Items {
        definitions,
        components,
    })
}

/// A program behind which nothing stands.
#[tactic(auto, unfolding(abc_readers::specs::Programs::whole_program))]
pub fn whole_program(parser: &mut Parser<'_>) -> Result<Items, Stop>
    ensures reads { Answers plain_items (spec.whole_program parser.old.rest.lexemes.now) result parser.new.rest.lexemes.now }
{
    let items = program(parser)?;
    match parser.next() {
        None => Ok(items),
        Some(_) => Err(Stop::Refused(Cause::Syntax)),
    }
}
