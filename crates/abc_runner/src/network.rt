//! What is printed of a program that runs as a network, and what ran.
ghost use Rattle.std.specs.Prelude.{◌≡◌, ℕ};
ghost use Rattle.abc_checks.specs.Facts.{IsChecked};
ghost use Rattle.abc_record_text.specs.LegalRecords.{IsLegalFor};
ghost use Rattle.abc_record_text.specs.RecordTexts.{IsRecordText};
ghost use Rattle.abc_runner.specs.declared.command.Command.TheVariants as command;
ghost use Rattle.abc_runner.specs.Commands.{IsNetworkWithin};
ghost use Rattle.abc_runner.specs.Networks.{IsNetworkRun};
ghost use Rattle.abc_runner.specs.Answers.{IsOfProgram, IsTraceSuch};

use crate::answer::Answer;
use crate::bound::{components_of, is_too_much, too_much};
use crate::status::Status;
use abc_moves::Label;
use abc_record_run::run_network;
use abc_record_text::{Record, record_text};
use abc_shape::Shape;
use abc_term::Program;
use abc_value::NoMemory;
use std::alloc::Global;

/// The answer of an accepted program that runs as this network, whatever the number of workers.
pub fn network_answer(
    alloc: Global,
    program: &Program,
    shape: Shape,
    limit: u32,
    nodes: u32,
    pick: u64,
) -> Answer
    requires checked { IsChecked program.now }
    requires within { IsNetworkWithin limit nodes pick }
    ensures { (workers : ℕ)
        → IsOfProgram (command.Net shape limit nodes workers pick) program.now result }
{
    let components = components_of(program);
    if is_too_much(limit, components) {
        return too_much(alloc, limit, components);
    }
    ran_answer(alloc, program, shape, limit, nodes, pick)
}

/// Runs the network; the answer is the trace of its record.
fn ran_answer(
    alloc: Global,
    program: &Program,
    shape: Shape,
    limit: u32,
    nodes: u32,
    pick: u64,
) -> Answer
    requires checked { IsChecked program.now }
    requires within { IsNetworkWithin limit nodes pick }
    ensures { IsTraceSuch (λ text ran. IsNetworkRun program.now shape limit nodes pick ran
        × IsRecordText program.now ran text) result }
{
    match run_network(alloc, program, shape, limit, nodes, pick) {
        Ok(ran) => trace_answer(alloc, program, ran),
        Err(NoMemory) => Answer::Refusal(Status::NoMemory),
    }
}

/// The answer of a record.
fn trace_answer(alloc: Global, program: &Program, ran: Record<Label>) -> Answer
    requires checked { IsChecked program.now }
    requires legal { IsLegalFor program.now ran }
    ensures { IsTraceSuch (λ text kept. (kept ≡ ran) × IsRecordText program.now kept text) result }
{
    match record_text(alloc, program, &ran) {
        Ok(text) => Answer::Trace(text, ran),
        Err(NoMemory) => Answer::Refusal(Status::NoMemory),
    }
}
