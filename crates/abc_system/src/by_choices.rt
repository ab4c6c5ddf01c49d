//! Runs by given choices.
ghost use Rattle.std.specs.Prelude.{◌≡◌, ◌<◌, ◌^◌, ◌++◌, ◌∷◌, [], length, map, IfOk, IfErr, OnOk, MatchResult};
ghost use Rattle.abc_checks.specs.Facts.{IsChecked};
ghost use Rattle.abc_steps.specs.Rows.{TellRun, choice_of_row};
ghost use Rattle.abc_system.specs.declared.by_choices.ReplayRefusal.TheVariants as refusal;
ghost use Rattle.abc_system.specs.Systems.{row_of, choice_of};
ghost use Rattle.abc_system.specs.Running.{system_in, definitions_in};
ghost use Rattle.abc_system.specs.Runs.{IsReplay, Refuses, IsStopped};

use crate::by_turns::finish;
use crate::row::StepRow;
use crate::run::Run;
use crate::system::System;
use abc_packet::Choice;
use abc_term::Program;
use abc_value::{List, NoMemory};
use std::alloc::Global;
use thiserror::Error;

/// Why choices were not replayed.
#[derive(Debug, Drop, Error)]
pub enum ReplayRefusal {
    /// The first choice that is no step, by its index from 0.
    #[error("choice {index} is no step")]
    NotAStep { index: u32 },
    #[error("no memory")]
    NoMemory,
}

/// Puts a row behind the others.
fn keep(steps: &mut List<StepRow>, row: StepRow) -> Result<(), ReplayRefusal>
    ensures ok { OnOk result (steps.new ≡ steps.old ++ row ∷ []) }
    ensures err { IfErr result (λ e. e ≡ refusal.NoMemory) }
{
    match steps.push(row) {
        Ok(()) => Ok(()),
        Err(NoMemory) => Err(ReplayRefusal::NoMemory),
    }
}

/// Makes the steps of the choices.
fn take_choices(
    alloc: Global,
    system: &mut System<'_>,
    choices: &[Choice],
) -> Result<List<StepRow>, ReplayRefusal>
    requires { length choices.now < 2 ^ 32 }
    ensures run { IfOk result (λ rs. TellRun (definitions_in system.old) (system_in system.old) (map row_of rs) (system_in system.new)) }
    ensures choices { IfOk result (λ rs. map choice_of_row (map row_of rs) ≡ map choice_of choices.now) }
    ensures program { IfOk result (λ _. definitions_in system.new ≡ definitions_in system.old) }
    ensures refused { IfErr result (IsStopped (definitions_in system.old) (system_in system.old) choices.now) }
{
    let mut steps = List::new(alloc);
    for (index, choice) in choices.iter().enumerate() {
        match system.step(choice) {
            Ok(Some(row)) => keep(&mut steps, row)?,
            Ok(None) => return Err(ReplayRefusal::NotAStep {
                index: index as u32,
            }),
            Err(NoMemory) => return Err(ReplayRefusal::NoMemory),
        }
    }
    Ok(steps)
}

/// The run of a program by these choices. Refused exactly where one of them is no step, at the first such one;
/// NoMemory may come of any.
pub fn replay(alloc: Global, program: &Program, choices: &[Choice]) -> Result<Run, ReplayRefusal>
    requires checked { IsChecked program.now }
    requires few { length choices.now < 2 ^ 32 }
    ensures { MatchResult result (IsReplay program.now choices.now) (Refuses program.now choices.now) }
{
    let Ok(mut system) = System::start(alloc, program) else {
        return Err(ReplayRefusal::NoMemory);
    };
    let steps = match take_choices(alloc, &mut system, choices) {
        Ok(steps) => steps,
        Err(refusal) => return Err(refusal),
    };
    match finish(&system, steps) {
        Ok(run) => Ok(run),
        Err(NoMemory) => Err(ReplayRefusal::NoMemory),
    }
}
