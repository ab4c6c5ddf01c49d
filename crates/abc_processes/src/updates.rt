//! Updates.
ghost use Rattle.std.specs.Prelude.{◌≡◌, [], ◌∷◌, ◌++◌, OnOk};
ghost use Rattle.abc_term.specs.Standing.{updates_of};
ghost use Rattle.abc_grammar.specs.declared.lexemes.Lexeme.TheVariants as l;
ghost use Rattle.abc_text.specs.declared.words.Mark.TheVariants as m;
ghost use Rattle.abc_readers.specs.Combining.{repeated};
ghost use Rattle.abc_readers.specs.Processes as spec;
ghost use Rattle.abc_processes.specs.Answers.{ReadsAs, Shortens, Leaves};
ghost use Rattle.abc_processes.specs.Processes.{update_of};

use crate::marks::{attribute, becomes};
use abc_cause::Cause;
use abc_grammar::{Lexeme, Mark};
use abc_phrases::{Parser, Stop};
use abc_term::Update;
use abc_value::{List, NoMemory};

fn push(found: &mut List<Update>, update: Update) -> Result<(), NoMemory>
    ensures { OnOk result (updates_of found.new ≡ updates_of found.old ++ update_of update ∷ []) }
{
    found.push(update)
}

/// An update, behind the bracket that opens it.
#[tactic(auto, using(crate::proofs::Steps::close_steps), unfolding(abc_readers::specs::Processes::update))]
fn update(parser: &mut Parser<'_>) -> Result<Update, Stop>
    ensures reads { ReadsAs update_of (λ ts. spec.update (l.Mark m.OpenSquare ∷ ts)) parser.old result parser.new }
    ensures shorter { Shortens parser.old result parser.new }
{
    let name = attribute(parser)?;
    becomes(parser)?;
    let value = parser.whole_expr()?;
    parser.close_square()?;
    Ok(Update { name, value })
}

/// The updates that stand here.
#[tactic(auto, using(crate::proofs::Steps::update_steps))]
fn updates(parser: &mut Parser<'_>) -> Result<List<Update>, Stop>
    ensures reads { ReadsAs updates_of (repeated spec.starts_update spec.update) parser.old result parser.new }
    ensures leaves { Leaves parser.old result parser.new }
{
    let mut found = List::new(parser.alloc);
    while let Some((Lexeme::Mark(Mark::OpenSquare), more)) = parser.next() {
        parser.rest = more;
        let update = update(parser)?;
        push(&mut found, update)?;
    }
    Ok(found)
}

/// A dot and the updates behind it.
#[tactic(auto, unfolding(abc_readers::specs::Processes::dotted_updates))]
pub fn dotted_updates(parser: &mut Parser<'_>) -> Result<List<Update>, Stop>
    ensures reads { ReadsAs updates_of spec.dotted_updates parser.old result parser.new }
    ensures shorter { Shortens parser.old result parser.new }
{
    match parser.next() {
        Some((Lexeme::Mark(Mark::Dot), more)) => {
            parser.rest = more;
            updates(parser)
        }
        _ => Err(Stop::Refused(Cause::Syntax)),
    }
}
