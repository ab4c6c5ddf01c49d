//! A run by choices, written as it is made.
ghost use Rattle.std.specs.Prelude.{◌≡◌, ◌++◌, OnOk};
ghost use Rattle.abc_system.specs.Running.{system_in, definitions_in};
ghost use Rattle.abc_run_text.specs.TextOf.{envs_text};
ghost use Rattle.abc_record_text.specs.RecordTexts.{CanRun, WritesRun};

use abc_packet::Choice;
use abc_pred::Env;
use abc_run_text::line_of;
use abc_system::System;
use abc_term::{Component, Program};
use abc_trace::{write_env, write_line};
use abc_value::{List, NoMemory, ShortText};
use std::alloc::Global;

/// Makes the steps of the choices, which are a run from the system, and appends their lines.
pub fn write_steps(
    alloc: Global,
    program: &Program,
    choices: &[Choice],
    system: &mut System<'_>,
    out: &mut List<u8>,
) -> Result<(), NoMemory>
    requires { CanRun (definitions_in system.old) (system_in system.old) choices.now }
    ensures { OnOk result
        (WritesRun program.now choices.now system.old system.new out.old out.new) }
{
    for (index, choice) in choices.iter().enumerate() {
        let Some(row) = system.step(choice)? else {
            unreachable!();
        };
        let line = line_of(alloc, program, row)?;
        write_line(&program.names, index as u64 + 1, &line, out)?;
    }
    Ok(())
}

/// Appends the lines of the components' attributes.
pub fn write_envs(
    names: &List<ShortText>,
    components: &[Component],
    envs: &[Env],
    out: &mut List<u8>,
) -> Result<(), NoMemory>
    ensures { OnOk result (out.new ≡ out.old ++ envs_text names.now components.now envs.now) }
{
    for (component, env) in components.iter().zip(envs) {
        write_env(names, component.name, env.entries(), out)?;
    }
    Ok(())
}
