//! Runs by the rule of places.
ghost use Rattle.std.specs.Prelude.{◌≡◌, ◌⊎◌, ◌≤◌, length, map, IfOk, IsTrue, ◌↔◌};
ghost use Rattle.abc_term.specs.Systems.{IsSilent};
ghost use Rattle.abc_checks.specs.Facts.{IsChecked};
ghost use Rattle.abc_steps.specs.Rows.{TellTurns};
ghost use Rattle.abc_system.specs.Systems.{row_of};
ghost use Rattle.abc_system.specs.Running.{system_in, definitions_in, envs_of};
ghost use Rattle.abc_system.specs.Runs.{EndsIn, IsSolo};

use crate::row::StepRow;
use crate::run::Run;
use crate::system::System;
use abc_term::Program;
use abc_value::{List, NoMemory};
use std::alloc::Global;

/// Makes steps by the rule of places, the first one at the turn `pick`, until no component can speak or
/// `limit` steps are made.
fn take_turns(
    alloc: Global,
    system: &mut System<'_>,
    limit: u32,
    pick: u64,
) -> Result<List<StepRow>, NoMemory>
    ensures turns { IfOk result (λ rs. TellTurns (definitions_in system.old) pick (system_in system.old) (map row_of rs) (system_in system.new)) }
    ensures most { IfOk result (λ rs. length rs ≤ limit) }
    ensures ends { IfOk result (λ rs. (length rs ≡ limit) ⊎ IsSilent (definitions_in system.old) (system_in system.new)) }
    ensures program { IfOk result (λ _. definitions_in system.new ≡ definitions_in system.old) }
{
    let mut steps = List::new(alloc);
    for made in 0..limit {
        match system.take_turn(pick, made)? {
            Some(row) => steps.push(row)?,
            None => return Ok(steps),
        }
    }
    Ok(steps)
}

/// The run with these steps, which ends as the system is now.
pub fn finish(system: &System<'_>, steps: List<StepRow>) -> Result<Run, NoMemory>
    ensures steps { IfOk result (λ r. r.steps ≡ steps) }
    ensures ends { IfOk result (λ r. EndsIn (definitions_in system.now) r (system_in system.now)) }
{
    let finals = system.envs()?;
    let silent = system.is_silent();
    Ok(Run {
        steps,
        finals,
        silent,
    })
}

/// The run of a program by the rule of places.
///
/// Step n, from 1, has as its speaker the component at the place `(pick + n - 1) mod count` among those that
/// can speak, and each move has the place `(pick + n - 1) mod count` of its own list. It ends where no
/// component can speak or after `limit` steps.
pub fn solo(alloc: Global, program: &Program, limit: u32, pick: u64) -> Result<Run, NoMemory>
    requires { IsChecked program.now }
    ensures { IfOk result (IsSolo program.now limit pick) }
{
    let mut system = System::start(alloc, program)?;
    let steps = take_turns(alloc, &mut system, limit, pick)?;
    let run = finish(&system, steps)?;
    Ok(run)
}
