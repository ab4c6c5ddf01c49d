//! Sources and sinks that fail at one of their calls.
use crate::scene::{
    Device, GREETING, GREETING_TRACE, SOUND, list_of, runs, sink_of, source_of, words_of,
};
use abc_runner::{Status, run};
use abc_value::{List, NoMemory};
use std::alloc::Global;
use std::test::Fail;

/// A source of the greeting in pieces of 64 bytes, the number of the call that fails, and the answer. A
/// command that reads nothing doesn't see that it fails.
#[test]
fn sources_fail(rt: HostRuntime) -> Result<(), Fail> {
    let fault = (Status::ReadFault, "abc: read fault\n");
    for (line, call, wanted) in [
        ("solo 10 0", 0, (Status::Done, GREETING_TRACE)),
        ("solo 10 0", 2, fault),
        ("print", 1, fault),
        ("gen 2 4 ring", 1, (Status::Unbuilt, "abc: not built yet\n")),
        ("solo", 1, (Status::BadWords, "abc: bad words\n")),
    ] {
        let bytes = list_of(rt.alloc(), GREETING.as_bytes())?;
        let source = (bytes, Device(64, call));
        runs(&rt, rt.alloc(), line, source, SOUND, wanted)?;
    }
    Ok(())
}

/// A text, the call of the source that fails, what the sink takes in a call and its call that fails, and
/// what it holds then.
#[test]
fn sinks_fail(rt: HostRuntime) -> Result<(), Fail> {
    for (text, call, sink, written) in [
        (
            GREETING,
            0,
            Device(16, 3),
            "abc-trace 1 solo 10 0\n1 alice:0 ",
        ),
        (GREETING, 2, Device(10, 2), "abc: read "),
        ("abc 1;", 0, Device(10, 3), "abc: refused at 6: N"),
        ("", 0, Device(16, 1), ""),
    ] {
        let bytes = list_of(rt.alloc(), text.as_bytes())?;
        let source = (bytes, Device(64, call));
        let fault = Status::WriteFault {
            written: written.len(),
        };
        runs(&rt, rt.alloc(), "solo 10 0", source, sink, (fault, written))?;
    }
    Ok(())
}

/// How `solo 10 0` on the greeting ends with these devices, and the number of bytes that are written.
fn ends(alloc: Global, source: Device, sink: Device) -> Result<(Status, usize), NoMemory> {
    let words = words_of(alloc, "solo 10 0")?;
    let bytes: List<u8> = list_of(alloc, GREETING.as_bytes())?;
    let mut source = source_of(alloc, bytes, source)?;
    let mut sink = sink_of(alloc, sink)?;
    let outcome = run(alloc, words.as_slice(), &mut source, &mut sink);
    Ok((outcome.status, sink.written().len()))
}

/// In pieces of 16 bytes the greeting takes ten reads and one that finds the end.
#[test]
fn each_read_fails(rt: HostRuntime) -> Result<(), Fail> {
    for call in 1..12 {
        let (status, _) = ends(rt.alloc(), Device(16, call), SOUND)?;
        assert_eq!(rt; status, Status::ReadFault, "call {call}");
    }
    let (status, _) = ends(rt.alloc(), Device(16, 12), SOUND)?;
    assert_eq!(rt; status, Status::Done);
    Ok(())
}

/// Its trace of 133 bytes takes nine writes.
#[test]
fn each_write_fails(rt: HostRuntime) -> Result<(), Fail> {
    for (call, written) in [
        (1, 0),
        (2, 16),
        (3, 32),
        (4, 48),
        (5, 64),
        (6, 80),
        (7, 96),
        (8, 112),
        (9, 128),
    ] {
        let ended = ends(rt.alloc(), SOUND, Device(16, call))?;
        let wanted = (Status::WriteFault { written }, written);
        assert_eq!(rt; ended, wanted, "call {call}");
    }
    let ended = ends(rt.alloc(), SOUND, Device(16, 10))?;
    assert_eq!(rt; ended, (Status::Done, 133));
    Ok(())
}
