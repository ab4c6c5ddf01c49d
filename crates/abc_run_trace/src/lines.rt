//! The lines of a trace.
ghost use Rattle.std.specs.Prelude.{◌≡◌, ◌++◌, IfOk, OnOk};
ghost use Rattle.abc_moves.specs.Labels.{label_of};
ghost use Rattle.abc_system.specs.Systems.{row_of};
ghost use Rattle.abc_run_trace.specs.Telling.{TellsSaid, TellsRow, TellEach, finals_of};

use crate::copies::{copy_entries, copy_pred, copy_values};
use abc_moves::Label;
use abc_pred::Env;
use abc_run_text::{hearers, name_at};
use abc_system::StepRow;
use abc_term::{Component, Program};
use abc_trace::{EnvLine, Line, Said};
use abc_value::{List, NoMemory};
use std::alloc::Global;

/// What was said at a place, and who heard it.
fn tell_said(
    alloc: Global,
    program: &Program,
    place: u32,
    label: &Label,
    heard: &[(u32, u32)],
) -> Result<Said, NoMemory>
    ensures { IfOk result (λ s.
        TellsSaid program.now place (label_of label.now) heard.now s) }
{
    let values = copy_values(alloc, label.values.as_slice())?;
    let pred = copy_pred(alloc, label)?;
    let heard = hearers(alloc, program, heard)?;
    Ok(Said {
        place,
        values,
        pred,
        heard,
    })
}

/// The line of a step.
fn tell_step(alloc: Global, program: &Program, row: &StepRow) -> Result<Line, NoMemory>
    ensures { IfOk result (λ l. TellsRow program.now (row_of row.now) l) }
{
    let sender = name_at(program, row.sender);
    match &row.spoke {
        None => Ok(Line { sender, said: None }),
        Some((place, label)) => {
            let said = tell_said(alloc, program, *place, label, row.heard.as_slice())?;
            Ok(Line {
                sender,
                said: Some(said),
            })
        }
    }
}

/// The lines of the steps, in order.
pub fn tell_steps(
    alloc: Global,
    program: &Program,
    rows: &[StepRow],
) -> Result<List<Line>, NoMemory>
    ensures { IfOk result (λ ls. TellEach program.now rows.now ls) }
{
    let mut lines = List::with_capacity(alloc, rows.len())?;
    for row in rows {
        lines.push(tell_step(alloc, program, row)?)?;
    }
    Ok(lines)
}

/// Puts the lines of the components' attributes behind the others.
pub fn add_finals(
    alloc: Global,
    components: &[Component],
    envs: &[Env],
    finals: &mut List<EnvLine>,
) -> Result<(), NoMemory>
    ensures { OnOk result (finals.new ≡ finals.old ++ finals_of components.now envs.now) }
{
    let Some((component, components)) = components.split_first() else {
        return Ok(());
    };
    let Some((env, envs)) = envs.split_first() else {
        return Ok(());
    };
    let entries = copy_entries(alloc, env.entries())?;
    finals.push(EnvLine {
        component: component.name,
        entries,
    })?;
    add_finals(alloc, components, envs, finals)
}
