//! The program: it passes the words after its own name, standard input and standard output to
//! `run`, and ends with the code of the status.
#![tactic(auto)]

use abc_io::{Sink, StdSink, StdSource, write_whole};
use abc_runner::{Status, run};
use std::process::ExitCode;
use std::rt::Env;
use std::{env, io};

fn main(rt: HostRuntime) -> ExitCode {
    let mut source = StdSource::new(rt.stdin());
    let mut sink = StdSink::new(rt.stdout());
    let words = match words(&rt) {
        Ok(words) => words,
        Err(error) if error.kind() == io::ErrorKind::OutOfMemory => return no_memory(&mut sink),
        // An argument that is no text is no word of a command, and the empty list is no command.
        Err(_) => Vec::new(rt.alloc()),
    };
    let outcome = run(rt.alloc(), words.as_slice(), &mut source, &mut sink);
    ExitCode::from(outcome.status.code())
}

/// The program's arguments after its own name.
fn words<R: Env + AllocGlobal>(rt: &R) -> io::Result<Vec<String>> {
    let args = env::args(rt)?;
    Ok(args.skip(1).collect(rt.alloc())?)
}

/// Says that memory ran out before there were words.
fn no_memory<K: Sink>(sink: &mut K) -> ExitCode {
    let status = Status::NoMemory;
    // Where the sink fails, a front of the line is all that can be said.
    match write_whole(sink, status.fixed_line()) {
        Ok(()) | Err(_) => ExitCode::from(status.code()),
    }
}
