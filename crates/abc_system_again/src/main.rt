//! Runs of the program from standard input, in which a step that memory is refused for is made a second time:
//!
//! - `turns LIMIT PICK`: at most LIMIT steps by the rule of places;
//! - `steps CHOICE ..`: the steps of these choices, where `none; ` stands for a choice that is none.
//!
//! Choices and runs are told as abc_shown's src/choices.rt and src/runs.rt say. The exit status is 0 behind a run; 6
//! where memory was refused outside a step; 2 where a refused step left other attributes, or another answer whether
//! the system is silent, than it found; and 1 where there is nothing to run or to write to. cases/growths refuses each
//! request for memory in turn.
#![tactic(auto)]

ghost use Rattle.std.specs.Prelude.{◌<◌, ◌^◌, IfOk, length};
ghost use Rattle.abc_checks.specs.Facts.{IsChecked};

use abc_io::{ReadRefusal, Source, StdSink, StdSource, read_all, write_whole};
use abc_packet::Choice;
use abc_parse::{TextRefusal, parse};
use abc_shown::{choice_of, put_envs, put_step};
use abc_system::{StepRow, System};
use abc_term::Program;
use abc_value::{List, NoMemory, ShortText};
use std::alloc::Global;
use std::process::ExitCode;
use std::rt::Env;
use std::{env, io};

/// The most bytes that are read.
const MOST_BYTES: usize = 1_048_576;

/// Why there is no run.
#[derive(Debug, Drop)]
enum Stop {
    NoMemory,
    Changed,
    Nothing,
}

impl Stop {
    fn code(self) -> ExitCode {
        match self {
            Stop::NoMemory => ExitCode::from(6),
            Stop::Changed => ExitCode::from(2),
            Stop::Nothing => ExitCode::FAILURE,
        }
    }
}

impl From<NoMemory> for Stop {
    fn from(_: NoMemory) -> Stop {
        Stop::NoMemory
    }
}

/// A step: by the rule of places, or that of a choice.
#[derive(Clone, Copy)]
enum Next<'c> {
    Turn { pick: u64, made: u32 },
    Chosen(&'c Choice),
}

/// Appends the attributes of all components, and whether the system is silent.
fn put_standing(
    alloc: Global,
    names: &[ShortText],
    system: &System<'_>,
    line: &mut List<u8>,
) -> Result<(), NoMemory> {
    let envs = system.envs()?;
    put_envs(alloc, names, envs.as_slice(), line)?;
    let silent = system.is_silent();
    line.extend_from_slice(if silent { b" silent" } else { b" speaks" })
}

fn standing(alloc: Global, names: &[ShortText], system: &System<'_>) -> Result<List<u8>, NoMemory> {
    let mut line = List::new(alloc);
    put_standing(alloc, names, system, &mut line)?;
    Ok(line)
}

fn step(system: &mut System<'_>, next: Next<'_>) -> Result<Option<StepRow>, NoMemory> {
    match next {
        Next::Turn { pick, made } => system.take_turn(pick, made),
        Next::Chosen(choice) => system.step(choice),
    }
}

/// Wants the system to stand as before.
fn want_standing(
    alloc: Global,
    names: &[ShortText],
    system: &System<'_>,
    before: &[u8],
) -> Result<(), Stop> {
    let now = standing(alloc, names, system)?;
    if now.as_slice() == before {
        Ok(())
    } else {
        Err(Stop::Changed)
    }
}

/// Makes the step; where memory was refused it is made a second time, by a system that stands as before.
fn step_again(
    alloc: Global,
    names: &[ShortText],
    system: &mut System<'_>,
    next: Next<'_>,
) -> Result<Option<StepRow>, Stop> {
    let before = standing(alloc, names, system)?;
    match step(system, next) {
        Ok(made) => Ok(made),
        Err(NoMemory) => {
            want_standing(alloc, names, system, before.as_slice())?;
            Ok(step(system, next)?)
        }
    }
}

/// Appends the steps by the rule of places.
fn put_turns(
    alloc: Global,
    names: &[ShortText],
    system: &mut System<'_>,
    (limit, pick): (u32, u64),
    line: &mut List<u8>,
) -> Result<(), Stop> {
    for made in 0..limit {
        match step_again(alloc, names, system, Next::Turn { pick, made })? {
            Some(row) => put_step(alloc, names, &row, line)?,
            None => return Ok(()),
        }
    }
    Ok(())
}

/// Appends the steps of the choices.
fn put_chosen(
    alloc: Global,
    names: &[ShortText],
    system: &mut System<'_>,
    words: &[String],
    line: &mut List<u8>,
) -> Result<(), Stop> {
    for word in words {
        let choice = choice_of(alloc, word.as_str())?;
        match step_again(alloc, names, system, Next::Chosen(&choice))? {
            Some(row) => put_step(alloc, names, &row, line)?,
            None => line.extend_from_slice(b"none; ")?,
        }
    }
    Ok(())
}

/// Appends the steps that the words ask for.
fn put_steps(
    alloc: Global,
    names: &[ShortText],
    system: &mut System<'_>,
    words: &[String],
    line: &mut List<u8>,
) -> Result<(), Stop> {
    let Some((first, rest)) = words.split_first() else {
        return Err(Stop::Nothing);
    };
    match (first.as_str(), rest) {
        ("turns", [limit, pick]) => match (limit.parse::<u32>(), pick.parse::<u64>()) {
            (Ok(limit), Ok(pick)) => put_turns(alloc, names, system, (limit, pick), line),
            _ => Err(Stop::Nothing),
        },
        ("steps", choices) => put_chosen(alloc, names, system, choices, line),
        _ => Err(Stop::Nothing),
    }
}

/// The run that the words ask for, as a line.
fn run_of(alloc: Global, program: &Program, words: &[String]) -> Result<List<u8>, Stop>
    requires { IsChecked program.now }
{
    let names = program.names.as_slice();
    let mut system = System::start(alloc, program)?;
    let mut line = List::new(alloc);
    put_steps(alloc, names, &mut system, words, &mut line)?;
    put_standing(alloc, names, &system, &mut line)?;
    line.push(b'\n')?;
    Ok(line)
}

/// The program of a text.
fn program_of(alloc: Global, text: &[u8]) -> Result<Program, Stop>
    requires { length text.now < 2 ^ 32 }
    ensures { IfOk result IsChecked }
{
    match parse(alloc, text) {
        Ok(parsed) => Ok(parsed.program),
        Err(TextRefusal::NoMemory) => Err(Stop::NoMemory),
        Err(TextRefusal::Refused { .. }) => Err(Stop::Nothing),
    }
}

/// All bytes of the source.
fn text_of<S: Source>(alloc: Global, source: &mut S) -> Result<List<u8>, Stop>
    ensures { IfOk result (λ text. length text < 2 ^ 32) }
{
    match read_all(alloc, source, MOST_BYTES) {
        Ok(bytes) => Ok(bytes),
        Err(ReadRefusal::NoMemory) => Err(Stop::NoMemory),
        Err(_) => Err(Stop::Nothing),
    }
}

/// The program's arguments after its own name.
fn read_words<R: Env + AllocGlobal>(rt: &R) -> io::Result<Vec<String>> {
    let args = env::args(rt)?;
    Ok(args.skip(1).collect(rt.alloc())?)
}

/// The same; an argument that is no text is no word.
fn words_of<R: Env + AllocGlobal>(rt: &R) -> Result<Vec<String>, Stop> {
    match read_words(rt) {
        Ok(words) => Ok(words),
        Err(error) if error.kind() == io::ErrorKind::OutOfMemory => Err(Stop::NoMemory),
        Err(_) => Err(Stop::Nothing),
    }
}

/// The line of the run that the words ask for, of the text of a source.
fn answer<S: Source, R: Env + AllocGlobal>(rt: &R, source: &mut S) -> Result<List<u8>, Stop> {
    let words = words_of(rt)?;
    let text = text_of(rt.alloc(), source)?;
    let program = program_of(rt.alloc(), text.as_slice())?;
    run_of(rt.alloc(), &program, words.as_slice())
}

fn main(rt: HostRuntime) -> ExitCode {
    let mut source = StdSource::new(rt.stdin());
    let mut sink = StdSink::new(rt.stdout());
    let line = match answer(&rt, &mut source) {
        Ok(line) => line,
        Err(stop) => return stop.code(),
    };
    match write_whole(&mut sink, line.as_slice()) {
        Ok(()) => ExitCode::SUCCESS,
        Err(_) => Stop::Nothing.code(),
    }
}
