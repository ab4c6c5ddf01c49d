//! A trace from standard input, read and printed again; or where it goes wrong, `bad line at PLACE` or
//! `missing at PLACE`. cases/readback compares the answers with those that are due.
#![tactic(auto)]

ghost use Rattle.std.specs.Prelude.{◌<◌, ◌^◌, length};

use abc_io::{Source, StdSink, StdSource, read_all, write_whole};
use abc_trace::write_trace;
use abc_trace_reader::{TraceRefusal, read_trace};
use abc_value::{List, NoMemory};
use std::alloc::Global;
use std::process::ExitCode;

/// The most bytes that `read_trace` takes.
const MOST_BYTES: usize = u32::MAX as usize;

fn line(alloc: Global, words: &str, place: u32) -> Result<List<u8>, NoMemory> {
    let mut out = String::new(alloc);
    write!(out, "{words} at {place}\n")?;
    Ok(List::from_vec(out.into_bytes()))
}

/// The answer for the bytes of a text.
fn answer(alloc: Global, bytes: &[u8]) -> Result<List<u8>, NoMemory>
    requires few { length bytes.now < 2 ^ 32 }
{
    match read_trace(alloc, bytes) {
        Ok(trace) => write_trace(alloc, &trace),
        Err(TraceRefusal::BadLine { place }) => line(alloc, "bad line", place),
        Err(TraceRefusal::Missing { place }) => line(alloc, "missing", place),
        Err(TraceRefusal::NoMemory) => Err(NoMemory),
    }
}

/// The answer for the text of a source, where the source gives it and there is memory.
fn answer_of<S: Source>(alloc: Global, source: &mut S) -> Option<List<u8>> {
    let bytes = read_all(alloc, source, MOST_BYTES).ok()?;
    answer(alloc, bytes.as_slice()).ok()
}

fn main(rt: HostRuntime) -> ExitCode {
    let mut source = StdSource::new(rt.stdin());
    let mut sink = StdSink::new(rt.stdout());
    let Some(text) = answer_of(rt.alloc(), &mut source) else {
        return ExitCode::FAILURE;
    };
    match write_whole(&mut sink, text.as_slice()) {
        Ok(()) => ExitCode::SUCCESS,
        Err(_) => ExitCode::FAILURE,
    }
}
