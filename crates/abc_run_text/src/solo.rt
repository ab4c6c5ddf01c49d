//! A run by the rule of places, written as it is made.
ghost use Rattle.std.specs.Prelude.{◌≡◌, ◌++◌, IfOk, OnOk};
ghost use Rattle.abc_checks.specs.Facts.{IsChecked};
ghost use Rattle.abc_system.specs.Systems.{row_of};
ghost use Rattle.abc_run_text.specs.TextOf.{row_text, envs_text};
ghost use Rattle.abc_run_text.specs.SoloTexts.{IsSoloText, WritesSteps, EndsSteps};

use crate::line::line_of;
use abc_pred::Env;
use abc_system::{StepRow, System};
use abc_term::{Component, Program};
use abc_trace::{Head, write_end, write_env, write_head, write_line};
use abc_value::{List, NoMemory, ShortText};
use std::alloc::Global;

/// Appends the line of a step.
fn write_row(
    alloc: Global,
    program: &Program,
    number: u64,
    row: StepRow,
    out: &mut List<u8>,
) -> Result<(), NoMemory>
    ensures { OnOk result (out.new ≡ out.old ++ row_text program.now number (row_of row)) }
{
    let line = line_of(alloc, program, row)?;
    write_line(&program.names, number, &line, out)
}

/// Makes steps by the rule of places, the first one at the turn `pick`, until no component can
/// speak or `limit` steps are made, and appends their lines; the number of steps.
fn write_steps(
    alloc: Global,
    system: &mut System<'_>,
    program: &Program,
    limit: u32,
    pick: u64,
    out: &mut List<u8>,
) -> Result<u32, NoMemory>
    ensures steps { IfOk result (λ made.
        WritesSteps program.now pick system.old system.new made out.old out.new) }
    ensures ends { IfOk result (λ made. EndsSteps limit system.old system.new made) }
{
    for made in 0..limit {
        match system.take_turn(pick, made)? {
            Some(row) => write_row(alloc, program, u64::from(made) + 1, row, out)?,
            None => return Ok(made),
        }
    }
    Ok(limit)
}

/// Appends the lines of the components' attributes.
fn write_envs(
    names: &List<ShortText>,
    components: &[Component],
    envs: &[Env],
    out: &mut List<u8>,
) -> Result<(), NoMemory>
    ensures { OnOk result (out.new ≡ out.old ++ envs_text names.now components.now envs.now) }
{
    let Some((component, components)) = components.split_first() else {
        return Ok(());
    };
    let Some((env, envs)) = envs.split_first() else {
        return Ok(());
    };
    write_env(names, component.name, env.entries(), out)?;
    write_envs(names, components, envs, out)
}

/// The trace of the program's run by the rule of places, of at most `limit` steps, the first at the
/// turn `pick`.
pub fn solo_text(
    alloc: Global,
    program: &Program,
    limit: u32,
    pick: u64,
) -> Result<List<u8>, NoMemory>
    requires { IsChecked program.now }
    ensures { IfOk result (λ text. IsSoloText program.now limit pick text) }
{
    let mut out = List::new(alloc);
    write_head(Head::Solo { limit, pick }, &mut out)?;
    let mut system = System::start(alloc, program)?;
    let made = write_steps(alloc, &mut system, program, limit, pick, &mut out)?;
    let envs = system.envs()?;
    write_envs(
        &program.names,
        program.components.as_slice(),
        envs.as_slice(),
        &mut out,
    )?;
    write_end(u64::from(limit), u64::from(made), &mut out)?;
    Ok(out)
}
