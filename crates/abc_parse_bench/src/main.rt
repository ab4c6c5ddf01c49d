//! What `parse` answers for the text from standard input: the line of the refusal, or `accepted`, the places of
//! the names of definitions and of components, and the length of the text. With the word `quiet` the places and
//! the length are left out, so that a text can be timed from outside. cases/run compares the answers with those
//! that are due.
#![tactic(auto)]

ghost use Rattle.std.specs.Prelude.{◌<◌, ◌^◌, length};

use abc_io::{Source, StdSink, StdSource, read_all, write_whole};
use abc_parse::{Cause, Places, TextRefusal, parse};
use abc_value::NoMemory;
use std::alloc::Global;
use std::process::ExitCode;
use std::rt::Env;
use std::{env, io};

/// The most bytes that `parse` takes.
const MOST_BYTES: usize = u32::MAX as usize;

/// The line of a refusal, whose cause is named as it is written, a check's alone.
fn write_refusal(out: &mut String, place: u32, cause: Cause) -> Result<(), NoMemory> {
    match cause {
        Cause::Check(cause) => write!(out, "abc: refused at {place}: {cause:?}\n")?,
        cause => write!(out, "abc: refused at {place}: {cause:?}\n")?,
    }
    Ok(())
}

fn write_list(out: &mut String, word: &str, places: &[u32]) -> Result<(), NoMemory> {
    out.push_str(word)?;
    for place in places {
        write!(out, " {place}")?;
    }
    out.push('\n')?;
    Ok(())
}

fn write_places(out: &mut String, places: &Places) -> Result<(), NoMemory> {
    let Places {
        definitions,
        components,
        end,
    } = places;
    write_list(out, "definitions", definitions.as_slice())?;
    write_list(out, "components", components.as_slice())?;
    write!(out, "end {end}\n")?;
    Ok(())
}

/// The answer for the bytes of a text.
fn answer(alloc: Global, bytes: &[u8], quiet: bool) -> Result<String, NoMemory>
    requires few { length bytes.now < 2 ^ 32 }
{
    let mut out = String::new(alloc);
    match parse(alloc, bytes) {
        Ok(parsed) => {
            out.push_str("accepted\n")?;
            if !quiet {
                write_places(&mut out, &parsed.places)?;
            }
        }
        Err(TextRefusal::Refused { place, cause }) => write_refusal(&mut out, place, cause)?,
        Err(TextRefusal::NoMemory) => return Err(NoMemory),
    }
    Ok(out)
}

/// The answer for the text of a source, where the source gives it and there is memory.
fn answer_of<S: Source>(alloc: Global, source: &mut S, quiet: bool) -> Option<String> {
    let bytes = read_all(alloc, source, MOST_BYTES).ok()?;
    answer(alloc, bytes.as_slice(), quiet).ok()
}

/// Whether the first argument behind the program's name is `quiet`.
fn is_quiet<R: Env + AllocGlobal>(rt: &R) -> io::Result<bool> {
    let args = env::args(rt)?;
    let words: Vec<String> = args.skip(1).collect(rt.alloc())?;
    match words.as_slice() {
        [word] => Ok(word.as_str() == "quiet"),
        _ => Ok(false),
    }
}

fn main(rt: HostRuntime) -> ExitCode {
    let mut source = StdSource::new(rt.stdin());
    let mut sink = StdSink::new(rt.stdout());
    let Ok(quiet) = is_quiet(&rt) else {
        return ExitCode::FAILURE;
    };
    let Some(text) = answer_of(rt.alloc(), &mut source, quiet) else {
        return ExitCode::FAILURE;
    };
    match write_whole(&mut sink, text.as_bytes()) {
        Ok(()) => ExitCode::SUCCESS,
        Err(_) => ExitCode::FAILURE,
    }
}
