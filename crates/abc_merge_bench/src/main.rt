//! A record from standard input, and what it tells: its merge, and how many packets each node handled.
//!
//! The text has a line for the record, SHAPE AGENTS NODES LIMIT PICK, and then a line for each
//! entry, ACTOR CLOCK DEED, those of one actor in order. A deed is one of
//! - `asked`, `took NUMBER PLACE`, `turned NUMBER PLACE CONTENT`, `passed NUMBER`,
//! - `arrived DREW LINK SENT PACKET`, `stray LINK SENT PACKET`.
//!
//! A packet is `request AGENT`, `reply AGENT GRANT` or `message NUMBER SENDER CONTENT`; SENT is its
//! clock. A content is a label or `empty`; a grant is a number or `closed`; a place is a number, and
//! `-` stands for no place and for nothing drawn.
//!
//! It prints `entry ACTOR PLACE` for each entry in the order of the merge, then `node NODE COUNT`; or
//! `bad line LINE`, from line 1. cases/merges compares this with records of its own.
#![tactic(auto)]

mod deeds;
mod histories;

ghost use Rattle.std.specs.Prelude.{◌≡◌, ◌+◌, ◌<◌, ◌^◌, All, length};
ghost use Rattle.std.specs.Bool.{OnTrue};

use abc_history::History;
use abc_io::{Source, StdSink, StdSource, read_all, write_whole};
use abc_merge::{Record, handled, merge};
use abc_packet::{List, Log};
use abc_shape::{MOST_AGENTS, MOST_NODES, Shape};
use abc_value::NoMemory;
use histories::{logs_of, note_line};
use std::alloc::Global;
use std::process::ExitCode;

/// The most bytes that are read.
const MOST_BYTES: usize = u32::MAX as usize;

/// The first line of a text.
#[derive(Clone, Copy)]
struct Head {
    shape: Shape,
    agents: u32,
    nodes: u32,
    limit: u32,
    pick: u64,
}

fn shape_of(word: &str) -> Option<Shape> {
    match word {
        "cluster" => Some(Shape::Cluster),
        "ring" => Some(Shape::Ring),
        "tree" => Some(Shape::Tree),
        _ => None,
    }
}

/// What the first line says, within the limits of plans.
fn head_of(alloc: Global, line: &str) -> Option<Head> {
    let words: Vec<&str> = line.split_whitespace().collect(alloc).ok()?;
    let (shape, agents, nodes, limit, pick) = match words.as_slice() {
        [shape, agents, nodes, limit, pick] => (*shape, *agents, *nodes, *limit, *pick),
        _ => return None,
    };
    let shape = shape_of(shape)?;
    let agents = agents.parse::<u32>().ok()?;
    let nodes = nodes.parse::<u32>().ok()?;
    if agents > MOST_AGENTS || nodes > MOST_NODES {
        return None;
    }
    Some(Head {
        shape,
        agents,
        nodes,
        limit: limit.parse::<u32>().ok()?,
        pick: pick.parse::<u64>().ok()?,
    })
}

/// Whether each of these logs is shorter than the merge asks for.
fn are_short(logs: &[Log<u32>]) -> bool
    ensures { OnTrue result (All (λ log. length log.entries < 2 ^ 32) logs.now) }
{
    logs.iter().all(|log| log.entries().len() < 1 << 32)
}

/// The lines of a record's merge.
fn put_merge(alloc: Global, out: &mut String, ran: &Record<u32>) -> Option<()> {
    let logs = ran.logs.as_slice();
    if logs.len() >= 1 << 32 || !are_short(logs) {
        return None;
    }
    let places = merge(alloc, ran).ok()?;
    put_places(out, places.as_slice()).ok()
}

fn put_places(out: &mut String, places: &[(u32, u32)]) -> Result<(), NoMemory> {
    for (actor, place) in places {
        write!(out, "entry {actor} {place}\n")?;
    }
    Ok(())
}

/// A line for each node of a record.
fn put_counts(out: &mut String, ran: &Record<u32>) -> Result<(), NoMemory>
    requires logs { length ran.now.logs ≡ ran.now.agents + ran.now.nodes }
{
    for node in 0..ran.nodes {
        let count = handled(ran, node);
        write!(out, "node {node} {count}\n")?;
    }
    Ok(())
}

/// What a record tells; None where it has not a log for each actor, or where there is no memory.
fn page_of(alloc: Global, ran: &Record<u32>) -> Option<String> {
    if ran.logs.len() != ran.agents as usize + ran.nodes as usize {
        return None;
    }
    let mut out = String::new(alloc);
    put_merge(alloc, &mut out, ran)?;
    put_counts(&mut out, ran).ok()?;
    Some(out)
}

/// The record of these logs.
fn record_of(head: &Head, logs: List<Log<u32>>) -> Record<u32> {
    Record {
        shape: head.shape,
        agents: head.agents,
        nodes: head.nodes,
        limit: head.limit,
        pick: head.pick,
        logs,
    }
}

fn line_of(alloc: Global, words: &str, line: usize) -> Result<String, NoMemory> {
    let mut out = String::new(alloc);
    write!(out, "{words} {line}\n")?;
    Ok(out)
}

/// The histories of so many actors that have done nothing.
fn blank_histories(alloc: Global, count: u32) -> Result<Vec<History<u32>>, NoMemory> {
    let mut histories = Vec::new(alloc);
    for _ in 0..count {
        histories.push(History::new(alloc))?;
    }
    Ok(histories)
}

/// Notes what the lines say, and answers the place of the first that says nothing, if one does.
fn note_lines(alloc: Global, histories: &mut Vec<History<u32>>, lines: &[&str]) -> Option<usize> {
    for (place, line) in lines.iter().enumerate() {
        if note_line(alloc, histories, line).is_none() {
            return Some(place);
        }
    }
    None
}

/// The answer for the lines of a text; None where there is no memory.
fn answer(alloc: Global, lines: &[&str]) -> Option<String> {
    let Some((first, entries)) = lines.split_first() else {
        return line_of(alloc, "bad line", 1).ok();
    };
    let Some(head) = head_of(alloc, first) else {
        return line_of(alloc, "bad line", 1).ok();
    };
    let actors = head.agents.checked_add(head.nodes)?;
    let mut histories = blank_histories(alloc, actors).ok()?;
    if let Some(place) = note_lines(alloc, &mut histories, entries) {
        return line_of(alloc, "bad line", place.saturating_add(2)).ok();
    }
    let ran = record_of(&head, logs_of(alloc, histories).ok()?);
    page_of(alloc, &ran)
}

/// The answer for the text of a source, where the source gives it and there is memory.
fn answer_of<S: Source>(alloc: Global, source: &mut S) -> Option<String> {
    let bytes = read_all(alloc, source, MOST_BYTES).ok()?;
    let text = std::str::from_utf8(bytes.as_slice()).ok()?;
    let lines: Vec<&str> = text.lines().collect(alloc).ok()?;
    answer(alloc, lines.as_slice())
}

fn main(rt: HostRuntime) -> ExitCode {
    let mut source = StdSource::new(rt.stdin());
    let mut sink = StdSink::new(rt.stdout());
    let Some(text) = answer_of(rt.alloc(), &mut source) else {
        return ExitCode::FAILURE;
    };
    match write_whole(&mut sink, text.as_bytes()) {
        Ok(()) => ExitCode::SUCCESS,
        Err(_) => ExitCode::FAILURE,
    }
}
