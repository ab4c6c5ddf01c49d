//! A run of the top call over devices in memory.
ghost use Rattle.std.specs.Prelude.{◌<◌};

use abc_io::{MemorySink, MemorySource};
use abc_runner::{Status, run};
use abc_value::{List, NoMemory};
use std::alloc::Global;
use std::process::Abort;
use std::test::Fail;

/// The first program of the examples.
pub const GREETING: &str =
    "abc 1;\ncomp alice { role = \"a\"; show role; run (\"hi\") @ (role = \"b\") . 0; }\ncomp bob { role = \"b\"; show role; run ? (role = \"a\") ($x) . [got := $x] 0; }\n";

/// What `solo 10 0` prints of it.
pub const GREETING_TRACE: &str =
    "abc-trace 1 solo 10 0\n1 alice:0 (\"hi\") @ (role = \"b\") -> bob:0\nenv alice { role = \"a\"; }\nenv bob { role = \"b\"; got = \"hi\"; }\nquiet 1\n";

/// A text that the canonical print sets in order.
pub const CANONICAL: &str =
    "abc 1; def A = {{()@([tt]).0}} + B; def B = ?(a=1 and [b<2 or c in {2,1,2}])($x).[n:=(n+1)*2]A; comp z{k=-3;show k;run A|B;}";

/// Its canonical print.
pub const CANONICAL_PRINT: &str =
    "abc 1;\ndef A = () @ (tt) . 0 + B;\ndef B = ? (a = 1 and [b < 2 or c in {1, 2}]) ($x) . [n := (n + 1) * 2] A;\ncomp z {\n  k = -3;\n  show k;\n  run A | B;\n}\n";

/// The words of a line, parted by blanks.
pub fn words_of(alloc: Global, line: &str) -> Result<Vec<String>, NoMemory> {
    let mut words = Vec::new(alloc);
    for word in line.split(' ') {
        if !word.is_empty() {
            words.push(String::from_str(alloc, word)?)?;
        }
    }
    Ok(words)
}

/// The list of these bytes.
pub fn list_of(alloc: Global, bytes: &[u8]) -> Result<List<u8>, NoMemory> {
    let mut list = List::new(alloc);
    list.extend_from_slice(bytes)?;
    Ok(list)
}

/// The number of the one call that fails; of none where it is 0.
fn failing(alloc: Global, call: u64) -> Result<List<u64>, NoMemory> {
    let mut calls = List::new(alloc);
    if call > 0 {
        calls.push(call)?;
    }
    Ok(calls)
}

/// A device: how many bytes a call moves, and the number of the one call that fails, 0 for none.
#[derive(Clone, Copy)]
pub struct Device(pub usize, pub u64);

/// A device that never fails and moves all bytes at once.
pub const SOUND: Device = Device(1_048_576, 0);

impl Device {
    /// How many bytes a call moves, at least 1.
    fn piece(&self) -> usize
        ensures { 0 < result }
    {
        if self.0 > 0 { self.0 } else { 1 }
    }
}

/// A source of these bytes.
pub fn source_of(alloc: Global, bytes: List<u8>, device: Device) -> Result<MemorySource, NoMemory> {
    let failing = failing(alloc, device.1)?;
    Ok(MemorySource::new(bytes, device.piece(), failing))
}

/// An empty sink.
pub fn sink_of(alloc: Global, device: Device) -> Result<MemorySink, NoMemory> {
    let failing = failing(alloc, device.1)?;
    MemorySink::new(alloc, 4096, device.piece(), failing)
}

/// One component that speaks once, and two that hear it.
pub const ONE_SPEAKER: &str =
    "abc 1;\ncomp a { show; run (1) @ (tt) . 0; }\ncomp b { show; run ? (tt) ($v) . [got := $v] 0; }\ncomp c { show; run ? (tt) ($v) . [got := $v] 0; }\n";

/// What `run ring 10 1 1 0` prints of it.
pub const RING_TRACE: &str =
    "abc-trace 1 ring 10 1 0\n1 a:0 (1) @ (tt) -> b:0, c:0\nenv a {}\nenv b { got = 1; }\nenv c { got = 1; }\nnode 0 2\nquiet 1\n";

/// Runs the words on a source of these bytes, and wants the status and what the sink holds then; whether a
/// record was left.
pub fn runs(
    rt: &impl Abort,
    alloc: Global,
    line: &str,
    source: (List<u8>, Device),
    sink: Device,
    wanted: (Status, &str),
) -> Result<bool, Fail> {
    let words = words_of(alloc, line)?;
    let mut source = source_of(alloc, source.0, source.1)?;
    let mut sink = sink_of(alloc, sink)?;
    let outcome = run(alloc, words.as_slice(), &mut source, &mut sink);
    let (status, written) = wanted;
    assert_eq!(rt; outcome.status, status, "at {line:?}");
    assert_eq!(rt; sink.written(), written.as_bytes(), "what {line:?} wrote");
    Ok(outcome.ran.is_some())
}
