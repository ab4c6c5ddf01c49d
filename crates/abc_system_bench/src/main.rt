//! Runs of the program from standard input:
//!
//! - `turns LIMIT PICK`: the run by the rule of places, and behind it the run by its choices;
//! - `solo LIMIT PICK`: the trace of the run by the rule of places, made as a value and written;
//! - `replay CHOICE ..`: the run by these choices, or `no step at INDEX`;
//! - `steps CHOICE ..`: these steps one by one, where `none; ` stands for a choice that is none.
//!
//! A choice is `0.2,1.0,3.1`, a run is told as abc_shown's src/runs.rt says. cases/choices has programs with what is
//! due, which cases/replays compares; cases/solos compares the traces.
#![tactic(auto)]

mod chosen;
mod traced;

ghost use Rattle.std.specs.Prelude.{◌<◌, ◌^◌, IfSome, length};
ghost use Rattle.abc_checks.specs.Facts.{IsChecked};
ghost use Rattle.abc_system_bench.specs.Accepted.{IsAcceptedProgram};

use crate::chosen::{choices_made, choices_of};
use crate::traced::{numbers_of, traced};
use abc_io::{Source, StdSink, StdSource, read_all, write_whole};
use abc_packet::Choice;
use abc_parse::parse;
use abc_shown::{choice_of, put_envs, put_step, shown_run};
use abc_system::{ReplayRefusal, System, replay, solo};
use abc_term::Program;
use abc_value::{List, NoMemory};
use std::alloc::Global;
use std::process::ExitCode;
use std::rt::Env;
use std::{env, io};

/// The most bytes that are read.
const MOST_BYTES: usize = 1_048_576;

/// The program of a text, where it is accepted.
fn program_of(alloc: Global, text: &[u8]) -> Option<Program>
    requires { length text.now < 2 ^ 32 }
    ensures checked { IfSome result IsChecked }
    ensures accepted { IfSome result IsAcceptedProgram }
{
    match parse(alloc, text) {
        Ok(parsed) => Some(parsed.program),
        Err(_) => None,
    }
}

/// The run by the choices, or the index of the first that is no step.
fn replayed(alloc: Global, program: &Program, choices: &[Choice]) -> Result<List<u8>, NoMemory>
    requires checked { IsChecked program.now }
    requires few { length choices.now < 2 ^ 32 }
{
    match replay(alloc, program, choices) {
        Ok(run) => shown_run(alloc, program.names.as_slice(), &run),
        Err(ReplayRefusal::NotAStep { index }) => {
            let mut line = String::new(alloc);
            write!(line, "no step at {index}")?;
            Ok(List::from_vec(line.into_bytes()))
        }
        Err(ReplayRefusal::NoMemory) => Err(NoMemory),
    }
}

/// The run by the rule of places, and the run by its choices.
fn turned(alloc: Global, program: &Program, limit: u32, pick: u64) -> Result<List<u8>, NoMemory>
    requires { IsChecked program.now }
{
    let run = solo(alloc, program, limit, pick)?;
    let mut line = shown_run(alloc, program.names.as_slice(), &run)?;
    let choices = choices_made(alloc, run.steps.as_slice())?;
    if choices.len() < 1_000_000 {
        let again = replayed(alloc, program, choices.as_slice())?;
        line.push(b'\n')?;
        line.extend_from_slice(again.as_slice())?;
    }
    Ok(line)
}

/// The steps by these choices, each one that is none left out, and what the system is behind them.
fn stepped(alloc: Global, program: &Program, words: &[String]) -> Result<List<u8>, NoMemory>
    requires { IsChecked program.now }
{
    let mut system = System::start(alloc, program)?;
    let names = program.names.as_slice();
    let mut line = List::new(alloc);
    for word in words {
        let choice = choice_of(alloc, word.as_str())?;
        match system.step(&choice)? {
            Some(row) => put_step(alloc, names, &row, &mut line)?,
            None => line.extend_from_slice(b"none; ")?,
        }
    }
    let envs = system.envs()?;
    put_envs(alloc, names, envs.as_slice(), &mut line)?;
    let silent = system.is_silent();
    line.extend_from_slice(if silent { b" silent" } else { b" speaks" })?;
    Ok(line)
}

/// The text with the end of a line behind it.
fn ended(mut text: List<u8>) -> Result<List<u8>, NoMemory> {
    text.push(b'\n')?;
    Ok(text)
}

/// What the words ask for; None where they are none of the four lists.
fn answer(alloc: Global, program: &Program, words: &[String]) -> Result<Option<List<u8>>, NoMemory>
    requires checked { IsChecked program.now }
    requires accepted { IsAcceptedProgram program.now }
{
    let Some((first, rest)) = words.split_first() else {
        return Ok(None);
    };
    match (first.as_str(), rest) {
        ("turns", [limit, pick]) => match (limit.parse::<u32>(), pick.parse::<u64>()) {
            (Ok(limit), Ok(pick)) => Ok(Some(ended(turned(alloc, program, limit, pick)?)?)),
            _ => Ok(None),
        },
        ("solo", [limit, pick]) => match numbers_of(limit.as_str(), pick.as_str()) {
            Some((limit, pick)) => Ok(Some(traced(alloc, program, limit, pick)?)),
            None => Ok(None),
        },
        ("replay", rest) => {
            let choices = choices_of(alloc, rest)?;
            if choices.len() < 1_000_000 {
                Ok(Some(ended(replayed(alloc, program, choices.as_slice())?)?))
            } else {
                Ok(None)
            }
        }
        ("steps", rest) => Ok(Some(ended(stepped(alloc, program, rest)?)?)),
        _ => Ok(None),
    }
}

/// The answer for the text of a source, where the source gives an accepted one and there is memory.
fn answer_of<S: Source>(alloc: Global, source: &mut S, words: &[String]) -> Option<List<u8>> {
    let bytes = read_all(alloc, source, MOST_BYTES).ok()?;
    let program = program_of(alloc, bytes.as_slice())?;
    answer(alloc, &program, words).ok()?
}

/// The program's arguments after its own name.
fn words<R: Env + AllocGlobal>(rt: &R) -> io::Result<Vec<String>> {
    let args = env::args(rt)?;
    Ok(args.skip(1).collect(rt.alloc())?)
}

fn main(rt: HostRuntime) -> ExitCode {
    let mut source = StdSource::new(rt.stdin());
    let mut sink = StdSink::new(rt.stdout());
    let Ok(words) = words(&rt) else {
        return ExitCode::FAILURE;
    };
    let Some(text) = answer_of(rt.alloc(), &mut source, words.as_slice()) else {
        return ExitCode::FAILURE;
    };
    match write_whole(&mut sink, text.as_slice()) {
        Ok(()) => ExitCode::SUCCESS,
        Err(_) => ExitCode::FAILURE,
    }
}
