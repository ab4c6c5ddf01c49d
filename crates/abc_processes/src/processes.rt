//! Processes.
ghost use Rattle.abc_term.specs.Standing.{process_of};
ghost use Rattle.abc_readers.specs.Processes as spec;
ghost use Rattle.abc_processes.specs.Answers.{left, ReadsAs, Shortens};
ghost use Rattle.abc_processes.specs.Processes.{HasNoHead, whole_choice};

use crate::heads::{heads, under_all};
use crate::terms::{boxed, choice_of, par_of};
use abc_cause::Cause;
use abc_grammar::{Lexeme, Mark};
use abc_phrases::{Parser, Stop};
use abc_term::Process;

/// A prefix without heads: `0`, a call, or a process in braces.
#[tactic(auto, using(crate::proofs::Steps::prefix_steps))]
#[cycle(process)]
fn bare(parser: &mut Parser<'_>) -> Result<Box<Process>, Stop>
    requires { HasNoHead (left parser.old) }
    ensures reads { ReadsAs (λ b. process_of b.value) spec.prefix parser.old result parser.new }
    ensures shorter { Shortens parser.old result parser.new }
{
    match parser.next() {
        Some((Lexeme::Number(0), more)) => {
            parser.rest = more;
            Ok(boxed(parser.alloc, Process::Nil)?)
        }
        Some((Lexeme::Name(name), more)) => {
            parser.rest = more;
            Ok(boxed(parser.alloc, Process::Call(*name))?)
        }
        Some((Lexeme::Mark(Mark::OpenCurly), more)) => {
            parser.rest = more;
            let inner = boxed_process(parser)?;
            parser.close_curly()?;
            Ok(inner)
        }
        _ => Err(Stop::Refused(Cause::Syntax)),
    }
}

/// A prefix: heads, and what stands under them.
#[tactic(auto, using(crate::proofs::Steps::head_steps))]
#[cycle(process)]
fn prefix(parser: &mut Parser<'_>) -> Result<Box<Process>, Stop>
    ensures reads { ReadsAs (λ b. process_of b.value) spec.prefix parser.old result parser.new }
    ensures shorter { Shortens parser.old result parser.new }
{
    let heads = heads(parser)?;
    let inner = bare(parser)?;
    Ok(under_all(parser.alloc, heads, inner)?)
}

/// Prefixes joined by `+`.
#[tactic(auto, using(crate::proofs::Steps::process_steps))]
#[cycle(process)]
fn choice(parser: &mut Parser<'_>) -> Result<Box<Process>, Stop>
    ensures reads { ReadsAs (λ b. process_of b.value) whole_choice parser.old result parser.new }
    ensures shorter { Shortens parser.old result parser.new }
{
    let mut found = prefix(parser)?;
    while let Some((Lexeme::Mark(Mark::Plus), more)) = parser.next() {
        parser.rest = more;
        let other = prefix(parser)?;
        found = choice_of(parser.alloc, found, other)?;
    }
    Ok(found)
}

/// A process, which is choices joined by `|`, in its box: it is let go of by one call, where a process
/// by value is taken apart. Where it is refused, `rest` is what is left from the refused token on.
#[tactic(auto, using(crate::proofs::Steps::process_steps))]
#[cycle(process)]
pub fn boxed_process(parser: &mut Parser<'_>) -> Result<Box<Process>, Stop>
    ensures reads { ReadsAs (λ b. process_of b.value) spec.process parser.old result parser.new }
    ensures shorter { Shortens parser.old result parser.new }
{
    let mut found = choice(parser)?;
    while let Some((Lexeme::Mark(Mark::Bar), more)) = parser.next() {
        parser.rest = more;
        let other = choice(parser)?;
        found = par_of(parser.alloc, found, other)?;
    }
    Ok(found)
}

/// A process by value, read in the same way.
pub fn process(parser: &mut Parser<'_>) -> Result<Process, Stop>
    ensures reads { ReadsAs process_of spec.process parser.old result parser.new }
    ensures shorter { Shortens parser.old result parser.new }
{
    let found = boxed_process(parser)?;
    Ok(Box::into_inner(found))
}
