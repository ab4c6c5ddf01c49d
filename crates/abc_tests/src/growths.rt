//! Runs in which one growth may be refused: with `rt try --test --fail-alloc N` the Nth one of each test.
//! Whichever it is, the answer is the same as ever, or that memory ran out, which is then the whole line.
use crate::scene::{
    CANONICAL, CANONICAL_PRINT, GREETING, GREETING_TRACE, ONE_SPEAKER, RING_TRACE, SOUND, list_of,
    sink_of, source_of, words_of,
};
use abc_io::{MemorySink, MemorySource};
use abc_runner::{Status, run};
use abc_value::NoMemory;
use std::alloc::Global;
use std::process::Abort;
use std::test::Fail;

const COLOURING: &str =
    "abc 1;\ndef V = when (colour = none) (id, free(used)) @ (this.id in nb) . [colour := free(used)] V + ? (id in this.nb) ($i, $c) . [used := union(used, set($c))] V;\ncomp v0 { id = 0; nb = {1, 3, 5}; used = {}; show id, nb; run V; }\ncomp v1 { id = 1; nb = {0, 2}; used = {}; show id, nb; run V; }\ncomp v2 { id = 2; nb = {1, 3}; used = {}; show id, nb; run V; }\ncomp v3 { id = 3; nb = {0, 2, 4}; used = {}; show id, nb; run V; }\ncomp v4 { id = 4; nb = {3, 5}; used = {}; show id, nb; run V; }\ncomp v5 { id = 5; nb = {0, 4}; used = {}; show id, nb; run V; }\n";

const COLOURING_TRACE: &str =
    "abc-trace 1 solo 10 0\n1 v0:0 (0, 0) @ (0 in nb) -> v1:0, v3:0, v5:0\n2 v2:0 (2, 0) @ (2 in nb) -> v1:0, v3:0\n3 v4:0 (4, 0) @ (4 in nb) -> v3:0, v5:0\n4 v1:0 (1, 1) @ (1 in nb) -> v0:0, v2:0\n5 v3:0 (3, 1) @ (3 in nb) -> v0:0, v2:0, v4:0\n6 v5:0 (5, 1) @ (5 in nb) -> v0:0, v4:0\nenv v0 { colour = 0; id = 0; used = {1}; nb = {1, 3, 5}; }\nenv v1 { colour = 1; id = 1; used = {0}; nb = {0, 2}; }\nenv v2 { colour = 0; id = 2; used = {1}; nb = {1, 3}; }\nenv v3 { colour = 1; id = 3; used = {0}; nb = {0, 2, 4}; }\nenv v4 { colour = 0; id = 4; used = {1}; nb = {3, 5}; }\nenv v5 { colour = 1; id = 5; used = {0}; nb = {0, 4}; }\nquiet 6\n";

/// The words, the source and the sink of a run.
type Scene = (Vec<String>, MemorySource, MemorySink);

fn made(alloc: Global, line: &str, text: &str) -> Result<Scene, NoMemory> {
    let words = words_of(alloc, line)?;
    let bytes = list_of(alloc, text.as_bytes())?;
    let source = source_of(alloc, bytes, SOUND)?;
    let sink = sink_of(alloc, SOUND)?;
    Ok((words, source, sink))
}

/// The same, made a second time where memory was refused.
fn made_again(alloc: Global, line: &str, text: &str) -> Result<Scene, NoMemory> {
    match made(alloc, line, text) {
        Err(NoMemory) => made(alloc, line, text),
        scene => scene,
    }
}

/// Wants the text that is due, or the whole line of want of memory.
fn prints(
    rt: &impl Abort,
    alloc: Global,
    line: &str,
    text: &str,
    printed: &str,
) -> Result<(), Fail> {
    let (words, source, sink) = made_again(alloc, line, text)?;
    let mut source = source;
    let mut sink = sink;
    let outcome = run(alloc, words.as_slice(), &mut source, &mut sink);
    let (status, due) = if outcome.status == Status::NoMemory {
        (Status::NoMemory, "abc: no memory\n")
    } else {
        (Status::Done, printed)
    };
    assert_eq!(rt; outcome.status, status);
    assert_eq!(rt; sink.written(), due.as_bytes());
    Ok(())
}

#[test]
fn greeting(rt: HostRuntime) -> Result<(), Fail> {
    prints(&rt, rt.alloc(), "solo 10 0", GREETING, GREETING_TRACE)
}

#[test]
fn colouring(rt: HostRuntime) -> Result<(), Fail> {
    prints(&rt, rt.alloc(), "solo 10 0", COLOURING, COLOURING_TRACE)
}

#[test]
fn canonical_print(rt: HostRuntime) -> Result<(), Fail> {
    prints(&rt, rt.alloc(), "print", CANONICAL, CANONICAL_PRINT)
}

#[test]
fn ring_of_one(rt: HostRuntime) -> Result<(), Fail> {
    prints(
        &rt,
        rt.alloc(),
        "run ring 10 1 1 0",
        ONE_SPEAKER,
        RING_TRACE,
    )
}
