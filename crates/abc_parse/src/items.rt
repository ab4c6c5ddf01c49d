//! Definitions and components.
ghost use Rattle.std.specs.Prelude.{◌≡◌, ◌<◌, ◌≤◌, [], ◌∷◌, ◌++◌, map, length, OnOk, IfOk};
ghost use Rattle.abc_term.specs.Standing.{process_of, definitions_of};
ghost use Rattle.abc_grammar.specs.Plain.{plain_component};
ghost use Rattle.abc_readers.specs.Combining.{one, then_read, repeated, closed, listed_up};
ghost use Rattle.abc_readers.specs.Processes.{a_name};
ghost use Rattle.abc_readers.specs.Programs as spec;
ghost use Rattle.abc_phrases.specs.Answers.{Answers};
ghost use Rattle.abc_parse.specs.Items.{plain_definition};

use crate::words::{
    comp_word, curly_closes, curly_opens, def_word, equal, name, run_word, semicolon, show_word,
};
use abc_grammar::{Keyword, Lexeme, Mark};
use abc_phrases::{Parser, Stop};
use abc_pred::Name;
use abc_processes::process;
use abc_term::{Component, Definition, Process};
use abc_value::{List, NoMemory, Value};

fn push_definition(found: &mut List<Definition>, item: Definition) -> Result<(), NoMemory>
    ensures { OnOk result (definitions_of found.new ≡ definitions_of found.old ++ plain_definition item ∷ []) }
{
    found.push(item)
}

fn push_component(found: &mut List<Component>, item: Component) -> Result<(), NoMemory>
    ensures { OnOk result (map plain_component found.new ≡ map plain_component found.old ++ plain_component item ∷ []) }
{
    found.push(item)
}

/// `def NAME = proc ;`
fn definition(parser: &mut Parser<'_>) -> Result<Definition, Stop>
    ensures reads { Answers plain_definition (spec.definition parser.old.rest.lexemes.now) result parser.new.rest.lexemes.now }
    ensures shorter { OnOk result (length parser.new.rest.lexemes.now < length parser.old.rest.lexemes.now) }
{
    def_word(parser)?;
    let name = name(parser)?;
    equal(parser)?;
    let body = process(parser)?;
    semicolon(parser)?;
    Ok(Definition { name, body })
}

/// The definitions, as long as the next token begins one.
#[tactic(auto, using(crate::proofs::ItemSteps::definition_steps))]
pub fn definitions(parser: &mut Parser<'_>) -> Result<List<Definition>, Stop>
    ensures reads { Answers definitions_of (repeated spec.starts_definition spec.definition parser.old.rest.lexemes.now) result parser.new.rest.lexemes.now }
    ensures no_longer { OnOk result (length parser.new.rest.lexemes.now ≤ length parser.old.rest.lexemes.now) }
{
    let mut found = List::new(parser.alloc);
    'items: while let Some((Lexeme::Keyword(Keyword::Def), _)) = parser.next() {
        let item = definition(parser)?;
        push_definition(&mut found, item)?;
    }
    Ok(found)
}

/// `NAME = literal ;`
#[tactic(auto, unfolding(abc_readers::specs::Programs::initial))]
fn initial(parser: &mut Parser<'_>) -> Result<(Name, Value), Stop>
    ensures reads { Answers (λ x. x) (spec.initial parser.old.rest.lexemes.now) result parser.new.rest.lexemes.now }
    ensures shorter { OnOk result (length parser.new.rest.lexemes.now < length parser.old.rest.lexemes.now) }
{
    let name = name(parser)?;
    equal(parser)?;
    let value = parser.literal()?;
    semicolon(parser)?;
    Ok((name, value))
}

/// The attributes with their first values, as long as the next token is a name.
#[tactic(auto, using(crate::proofs::ItemSteps::initial_steps))]
fn initials(parser: &mut Parser<'_>) -> Result<List<(Name, Value)>, Stop>
    ensures reads { Answers (λ xs. xs) (repeated spec.starts_initial spec.initial parser.old.rest.lexemes.now) result parser.new.rest.lexemes.now }
    ensures no_longer { OnOk result (length parser.new.rest.lexemes.now ≤ length parser.old.rest.lexemes.now) }
{
    let mut found = List::new(parser.alloc);
    'items: while let Some((Lexeme::Name(_), _)) = parser.next() {
        let item = initial(parser)?;
        found.push(item)?;
    }
    Ok(found)
}

/// Names parted by commas, of which there is at least one, and the semicolon behind them.
#[tactic(auto, using(crate::proofs::ItemSteps::name_steps))]
fn names(parser: &mut Parser<'_>) -> Result<List<Name>, Stop>
    ensures reads { Answers (λ ns. ns) (listed_up spec.semicolon (one a_name) parser.old.rest.lexemes.now) result parser.new.rest.lexemes.now }
    ensures shorter { OnOk result (length parser.new.rest.lexemes.now < length parser.old.rest.lexemes.now) }
{
    let mut found = List::new(parser.alloc);
    let first = name(parser)?;
    found.push(first)?;
    'items: while let Some((Lexeme::Mark(Mark::Comma), more)) = parser.next() {
        parser.rest = more;
        let next = name(parser)?;
        found.push(next)?;
    }
    semicolon(parser)?;
    Ok(found)
}

/// Names parted by commas, if there are any, and the semicolon behind them.
fn names_or_none(parser: &mut Parser<'_>) -> Result<List<Name>, Stop>
    ensures reads { Answers (λ ns. ns) (closed spec.semicolon (one a_name) parser.old.rest.lexemes.now) result parser.new.rest.lexemes.now }
    ensures shorter { OnOk result (length parser.new.rest.lexemes.now < length parser.old.rest.lexemes.now) }
{
    match parser.next() {
        Some((Lexeme::Mark(Mark::Semicolon), more)) => {
            parser.rest = more;
            Ok(List::new(parser.alloc))
        }
        _ => names(parser),
    }
}

/// `show [ NAME { , NAME } ] ;`
#[tactic(auto, unfolding(abc_readers::specs::Programs::show_part))]
fn shown(parser: &mut Parser<'_>) -> Result<List<Name>, Stop>
    ensures reads { Answers (λ ns. ns) (spec.show_part parser.old.rest.lexemes.now) result parser.new.rest.lexemes.now }
    ensures shorter { OnOk result (length parser.new.rest.lexemes.now < length parser.old.rest.lexemes.now) }
{
    show_word(parser)?;
    names_or_none(parser)
}

/// `; }`
fn component_end(parser: &mut Parser<'_>) -> Result<(), Stop>
    ensures reads { Answers (λ u. (u, u)) (then_read (one spec.semicolon) (one spec.curly_closes) parser.old.rest.lexemes.now) result parser.new.rest.lexemes.now }
    ensures shorter { OnOk result (length parser.new.rest.lexemes.now < length parser.old.rest.lexemes.now) }
{
    semicolon(parser)?;
    curly_closes(parser)?;
    Ok(())
}

/// `run proc ; }`
fn run(parser: &mut Parser<'_>) -> Result<Process, Stop>
    ensures reads { Answers process_of (spec.run_part parser.old.rest.lexemes.now) result parser.new.rest.lexemes.now }
    ensures shorter { OnOk result (length parser.new.rest.lexemes.now < length parser.old.rest.lexemes.now) }
{
    run_word(parser)?;
    let run = process(parser)?;
    component_end(parser)?;
    Ok(run)
}

/// `comp NAME { { NAME = literal ; } show run }`
fn component(parser: &mut Parser<'_>) -> Result<Component, Stop>
    ensures reads { Answers plain_component (spec.component parser.old.rest.lexemes.now) result parser.new.rest.lexemes.now }
    ensures shorter { OnOk result (length parser.new.rest.lexemes.now < length parser.old.rest.lexemes.now) }
{
    comp_word(parser)?;
    let name = name(parser)?;
    curly_opens(parser)?;
    let initial = initials(parser)?;
    let show = shown(parser)?;
    let run = run(parser)?;
    Ok(Component {
        name,
        initial,
        show,
        run,
    })
}

/// The components, as long as the next token begins one.
#[tactic(auto, using(crate::proofs::ItemSteps::component_steps))]
pub fn components(parser: &mut Parser<'_>) -> Result<List<Component>, Stop>
    ensures reads { Answers (map plain_component) (repeated spec.starts_component spec.component parser.old.rest.lexemes.now) result parser.new.rest.lexemes.now }
    ensures no_longer { OnOk result (length parser.new.rest.lexemes.now ≤ length parser.old.rest.lexemes.now) }
{
    let mut found = List::new(parser.alloc);
    'items: while let Some((Lexeme::Keyword(Keyword::Comp), _)) = parser.next() {
        let item = component(parser)?;
        push_component(&mut found, item)?;
    }
    Ok(found)
}
