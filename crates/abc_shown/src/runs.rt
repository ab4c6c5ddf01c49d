//! Steps and runs as texts. Components stand with their numbers.
//!
//! A step is `0:1 (2, "x"){a=3;} -> 1:0 2:1; `: component 0 speaks at place 1, says 2 and "x" and shows
//! that its a is 3; component 1 hears it at place 0, component 2 at place 1. Component 0's empty step is
//! `0:- ->; `. Behind a run's steps stand the components' attributes, and whether the system is silent.
use abc_moves::Label;
use abc_pred::Env;
use abc_system::{Run, StepRow};
use abc_value::{List, NoMemory, ShortText, Value, View, write_value};
use std::alloc::Global;

fn put_number(alloc: Global, number: u32, line: &mut List<u8>) -> Result<(), NoMemory> {
    write_value(alloc, View::Number(i64::from(number)), line)
}

fn put_values(alloc: Global, values: &[Value], line: &mut List<u8>) -> Result<(), NoMemory> {
    for (index, value) in values.iter().enumerate() {
        if index > 0 {
            line.extend_from_slice(b", ")?;
        }
        write_value(alloc, value.view(), line)?;
    }
    Ok(())
}

fn put_env(
    alloc: Global,
    names: &[ShortText],
    env: &Env,
    line: &mut List<u8>,
) -> Result<(), NoMemory> {
    line.extend_from_slice(b"{")?;
    for (name, value) in env.entries() {
        if let Some(text) = names.get(name.0 as usize) {
            line.extend_from_slice(text.bytes())?;
        }
        line.extend_from_slice(b"=")?;
        write_value(alloc, value.view(), line)?;
        line.extend_from_slice(b";")?;
    }
    line.extend_from_slice(b"}")
}

fn put_label(
    alloc: Global,
    names: &[ShortText],
    label: &Label,
    line: &mut List<u8>,
) -> Result<(), NoMemory> {
    line.extend_from_slice(b"(")?;
    put_values(alloc, label.values.as_slice(), line)?;
    line.extend_from_slice(b")")?;
    put_env(alloc, names, &label.shown, line)
}

fn put_said(
    alloc: Global,
    names: &[ShortText],
    spoke: &Option<(u32, Label)>,
    line: &mut List<u8>,
) -> Result<(), NoMemory> {
    match spoke {
        None => line.extend_from_slice(b"-"),
        Some((place, label)) => {
            put_number(alloc, *place, line)?;
            line.extend_from_slice(b" ")?;
            put_label(alloc, names, label, line)
        }
    }
}

fn put_hearers(alloc: Global, heard: &[(u32, u32)], line: &mut List<u8>) -> Result<(), NoMemory> {
    for (hearer, place) in heard {
        line.extend_from_slice(b" ")?;
        put_number(alloc, *hearer, line)?;
        line.extend_from_slice(b":")?;
        put_number(alloc, *place, line)?;
    }
    Ok(())
}

pub fn put_step(
    alloc: Global,
    names: &[ShortText],
    row: &StepRow,
    line: &mut List<u8>,
) -> Result<(), NoMemory> {
    put_number(alloc, row.sender, line)?;
    line.extend_from_slice(b":")?;
    put_said(alloc, names, &row.spoke, line)?;
    line.extend_from_slice(b" ->")?;
    put_hearers(alloc, row.heard.as_slice(), line)?;
    line.extend_from_slice(b"; ")
}

fn put_steps(
    alloc: Global,
    names: &[ShortText],
    steps: &[StepRow],
    line: &mut List<u8>,
) -> Result<(), NoMemory> {
    for row in steps {
        put_step(alloc, names, row, line)?;
    }
    Ok(())
}

pub fn put_envs(
    alloc: Global,
    names: &[ShortText],
    envs: &[Env],
    line: &mut List<u8>,
) -> Result<(), NoMemory> {
    for env in envs {
        put_env(alloc, names, env, line)?;
    }
    Ok(())
}

pub fn shown_label(
    alloc: Global,
    names: &[ShortText],
    label: &Label,
) -> Result<List<u8>, NoMemory> {
    let mut line = List::new(alloc);
    put_label(alloc, names, label, &mut line)?;
    Ok(line)
}

pub fn shown_env(alloc: Global, names: &[ShortText], env: &Env) -> Result<List<u8>, NoMemory> {
    let mut line = List::new(alloc);
    put_env(alloc, names, env, &mut line)?;
    Ok(line)
}

pub fn shown_run(alloc: Global, names: &[ShortText], run: &Run) -> Result<List<u8>, NoMemory> {
    let mut line = List::new(alloc);
    put_steps(alloc, names, run.steps.as_slice(), &mut line)?;
    put_envs(alloc, names, run.finals.as_slice(), &mut line)?;
    line.extend_from_slice(if run.silent { b" silent" } else { b" speaks" })?;
    Ok(line)
}
