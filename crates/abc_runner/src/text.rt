//! What a command prints of a text, or why it is refused.
ghost use Rattle.std.specs.Prelude.{◌≡◌, ◌<◌, ◌^◌, length};
ghost use Rattle.abc_checks.specs.Facts.{IsChecked};
ghost use Rattle.abc_printed.specs.Printed.{program_text};
ghost use Rattle.abc_run_text.specs.SoloTexts.{IsSoloText};
ghost use Rattle.abc_runner.specs.declared.command.Command.TheVariants as command;
ghost use Rattle.abc_runner.specs.declared.status.Status.TheVariants as status;
ghost use Rattle.abc_runner.specs.Commands.{IsWithin};
ghost use Rattle.abc_runner.specs.Answers.{IsLineOf, IsOfProgram, IsOfText, IsTextSuch};
ghost use Rattle.abc_runner.specs.Outcomes.{ReadsText};

use crate::answer::Answer;
use crate::bound::{components_of, is_too_much, too_much};
use crate::command::Command;
use crate::network::network_answer;
use crate::status::{Status, refused_line};
use abc_parse::{Cause, TextRefusal, parse};
use abc_print::print_program;
use abc_run_text::solo_text;
use abc_term::Program;
use abc_value::NoMemory;
use std::alloc::Global;

/// The answer of a text, whose bytes these are.
pub fn text_answer(alloc: Global, command: Command, bytes: &[u8]) -> Answer
    requires built { ReadsText (Some command) }
    requires within { IsWithin command }
    requires few { length bytes.now < 2 ^ 32 }
    ensures { IsOfText command bytes.now result }
{
    match parse(alloc, bytes) {
        Ok(parsed) => program_answer(alloc, command, &parsed.program),
        Err(TextRefusal::NoMemory) => Answer::Refusal(Status::NoMemory),
        Err(TextRefusal::Refused { place, cause }) => refused(alloc, place, cause),
    }
}

fn refused(alloc: Global, place: u32, cause: Cause) -> Answer
    ensures { IsLineOf (status.Refused place cause) result }
{
    match refused_line(alloc, place, cause) {
        Ok(line) => Answer::Line(Status::Refused { place, cause }, line),
        Err(NoMemory) => Answer::Refusal(Status::NoMemory),
    }
}

/// The answer of an accepted program.
fn program_answer(alloc: Global, command: Command, program: &Program) -> Answer
    requires built { ReadsText (Some command) }
    requires within { IsWithin command }
    requires checked { IsChecked program.now }
    ensures { IsOfProgram command program.now result }
{
    match command {
        Command::Solo { limit, pick } => solo_answer(alloc, program, limit, pick),
        Command::Net {
            shape,
            limit,
            nodes,
            workers: _,
            pick,
        } => network_answer(alloc, program, shape, limit, nodes, pick),
        Command::Print => print_answer(alloc, program),
        Command::Other => Answer::Refusal(Status::Unbuilt),
    }
}

fn print_answer(alloc: Global, program: &Program) -> Answer
    ensures { IsTextSuch (λ text. text ≡ program_text program.now) result }
{
    match print_program(alloc, program) {
        Ok(text) => Answer::Text(text),
        Err(NoMemory) => Answer::Refusal(Status::NoMemory),
    }
}

fn solo_answer(alloc: Global, program: &Program, limit: u32, pick: u64) -> Answer
    requires checked { IsChecked program.now }
    ensures { IsOfProgram (command.Solo limit pick) program.now result }
{
    let components = components_of(program);
    if is_too_much(limit, components) {
        return too_much(alloc, limit, components);
    }
    run_answer(alloc, program, limit, pick)
}

fn run_answer(alloc: Global, program: &Program, limit: u32, pick: u64) -> Answer
    requires checked { IsChecked program.now }
    ensures { IsTextSuch (IsSoloText program.now limit pick) result }
{
    match solo_text(alloc, program, limit, pick) {
        Ok(text) => Answer::Text(text),
        Err(NoMemory) => Answer::Refusal(Status::NoMemory),
    }
}
