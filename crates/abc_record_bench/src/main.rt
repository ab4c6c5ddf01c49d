//! The trace of a program from standard input as a network, where events are picked by an order.
//! The words are SHAPE LIMIT NODES PICK ORDER: each event is the one at place ORDER modulo the
//! number of those that can be made.
//!
//! cases/networks runs it on many programs and orders, and makes the run of each trace by choices
//! again.
#![tactic(auto)]

ghost use Rattle.std.specs.Prelude.{◌≡◌, ◌<◌, ◌≤◌, ◌^◌, IfSome, length};
ghost use Rattle.abc_checks.specs.Facts.{IsChecked};

use abc_io::{Source, StdSink, StdSource, read_all, write_whole};
use abc_parse::parse;
use abc_record_run::run_in_order;
use abc_record_text::record_text;
use abc_shape::{MOST_NODES, Shape};
use abc_term::Program;
use abc_trace::{MOST_LIMIT, MOST_PICK};
use abc_value::{List, NoMemory};
use std::alloc::Global;
use std::process::ExitCode;
use std::rt::Env;
use std::{env, io};

/// The most bytes that are read.
const MOST_BYTES: usize = 1_048_576;

/// A network with the order of its events.
#[derive(Clone, Copy, Debug)]
struct Words {
    shape: Shape,
    limit: u32,
    nodes: u32,
    pick: u64,
    order: u64,
}

fn shape_of(word: &str) -> Option<Shape> {
    match word {
        "cluster" => Some(Shape::Cluster),
        "ring" => Some(Shape::Ring),
        "tree" => Some(Shape::Tree),
        _ => None,
    }
}

/// What the words ask for; None where a number is past its limits.
fn words_of(words: &[String]) -> Option<Words>
    ensures some { IfSome result (λ w. 0 < w.limit) }
    ensures limit { IfSome result (λ w. w.limit ≤ MOST_LIMIT) }
    ensures a_node { IfSome result (λ w. 1 ≤ w.nodes) }
    ensures nodes { IfSome result (λ w. w.nodes ≤ MOST_NODES) }
    ensures pick { IfSome result (λ w. w.pick ≤ MOST_PICK) }
{
    let [shape, limit, nodes, pick, order] = words else {
        return None;
    };
    let shape = shape_of(shape.as_str())?;
    let limit = limit.parse::<u32>().ok()?;
    let nodes = nodes.parse::<u32>().ok()?;
    let pick = pick.parse::<u64>().ok()?;
    let order = order.parse::<u64>().ok()?;
    if limit == 0 || u64::from(limit) > MOST_LIMIT || nodes == 0 || nodes > MOST_NODES {
        return None;
    }
    if pick > MOST_PICK {
        return None;
    }
    Some(Words {
        shape,
        limit,
        nodes,
        pick,
        order,
    })
}

/// The program of a text, where it is accepted.
fn program_of(alloc: Global, text: &[u8]) -> Option<Program>
    requires { length text.now < 2 ^ 32 }
    ensures { IfSome result IsChecked }
{
    match parse(alloc, text) {
        Ok(parsed) => Some(parsed.program),
        Err(_) => None,
    }
}

/// The trace of the network.
fn trace_of(alloc: Global, program: &Program, words: Words) -> Result<List<u8>, NoMemory>
    requires checked { IsChecked program.now }
    requires some { 0 < words.limit }
    requires limit { words.limit ≤ MOST_LIMIT }
    requires a_node { 1 ≤ words.nodes }
    requires nodes { words.nodes ≤ MOST_NODES }
    requires pick { words.pick ≤ MOST_PICK }
{
    let Words {
        shape,
        limit,
        nodes,
        pick,
        order,
    } = words;
    let ran = run_in_order(alloc, program, shape, limit, nodes, pick, order)?;
    record_text(alloc, program, &ran)
}

/// The answer for the text of a source, where the source gives an accepted one and there is memory.
fn answer_of<S: Source>(alloc: Global, source: &mut S, words: &[String]) -> Option<List<u8>> {
    let words = words_of(words)?;
    let bytes = read_all(alloc, source, MOST_BYTES).ok()?;
    let program = program_of(alloc, bytes.as_slice())?;
    trace_of(alloc, &program, words).ok()
}

/// The program's arguments after its own name.
fn arguments<R: Env + AllocGlobal>(rt: &R) -> io::Result<Vec<String>> {
    let args = env::args(rt)?;
    Ok(args.skip(1).collect(rt.alloc())?)
}

fn main(rt: HostRuntime) -> ExitCode {
    let mut source = StdSource::new(rt.stdin());
    let mut sink = StdSink::new(rt.stdout());
    let Ok(words) = arguments(&rt) else {
        return ExitCode::FAILURE;
    };
    let Some(text) = answer_of(rt.alloc(), &mut source, words.as_slice()) else {
        return ExitCode::FAILURE;
    };
    match write_whole(&mut sink, text.as_slice()) {
        Ok(()) => ExitCode::SUCCESS,
        Err(_) => ExitCode::FAILURE,
    }
}
