//! How long it takes from the bytes of a text to its lexemes: the text is read from standard input, and the word
//! says how often it goes on from there. It prints the number of lexemes and of names of the last time.
//! docs/SPEED.md says how it is run and what was seen.
#![tactic(auto)]

use abc_io::{StdSource, read_all};
use abc_lexemes::read_lexemes;
use abc_value::NoMemory;
use std::alloc::Global;
use std::process::ExitCode;
use std::rt::Env;
use std::{env, io};

/// The numbers of lexemes and of names, after that many readings.
fn counts(alloc: Global, bytes: &[u8], often: u32) -> Result<(usize, usize), NoMemory> {
    let mut found = (0, 0);
    if bytes.len() > 1 << 30 {
        return Ok(found);
    }
    for _ in 0..often {
        let lexed = read_lexemes(alloc, &[], bytes)?;
        found = (lexed.lexemes.len(), lexed.names.words().len());
    }
    Ok(found)
}

/// The number that the first word after the program's own name writes; 0 where it writes none.
fn often<R: Env + AllocGlobal>(rt: &R) -> io::Result<u32> {
    for word in env::args(rt)?.skip(1) {
        return Ok(word.as_str().parse::<u32>().unwrap_or(0));
    }
    Ok(0)
}

fn main(rt: HostRuntime) -> ExitCode {
    let Ok(often) = often(&rt) else {
        return ExitCode::FAILURE;
    };
    let mut source = StdSource::new(rt.stdin());
    let Ok(bytes) = read_all(rt.alloc(), &mut source, 1 << 20) else {
        return ExitCode::FAILURE;
    };
    match counts(rt.alloc(), bytes.as_slice(), often) {
        Ok((lexemes, names)) => match println!(rt; "{lexemes} {names}") {
            Ok(()) => ExitCode::SUCCESS,
            Err(_) => ExitCode::FAILURE,
        },
        Err(NoMemory) => ExitCode::FAILURE,
    }
}
