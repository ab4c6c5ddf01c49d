//! Networks by the top call: what is printed of each, and that its record is handed over.
use crate::scene::{Device, ONE_SPEAKER, RING_TRACE, SOUND, list_of, runs};
use abc_runner::Status;
use std::test::Fail;

/// A component that speaks for ever.
const ENDLESS: &str = "abc 1;\ndef K = (1) @ (tt) . K;\ncomp a { show; run K; }\n";

/// The words, a text, what the sink takes in a call and its call that fails, the status, and what the
/// sink holds then.
#[test]
fn networks_run(rt: HostRuntime) -> Result<(), Fail> {
    for (line, text, sink, wanted) in [
        (
            "run ring 10 1 1 0",
            ONE_SPEAKER,
            SOUND,
            (Status::Done, RING_TRACE),
        ),
        (
            "run cluster 1 1 1 0",
            ENDLESS,
            SOUND,
            (
                Status::Done,
                "abc-trace 1 cluster 1 1 0\n1 a:0 (1) @ (tt) -> -\nenv a {}\nnode 0 3\nlimit 1\n",
            ),
        ),
        (
            "run ring 10 1 1 0",
            ONE_SPEAKER,
            Device(16, 3),
            (
                Status::WriteFault { written: 32 },
                "abc-trace 1 ring 10 1 0\n1 a:0 (1",
            ),
        ),
    ] {
        let bytes = list_of(rt.alloc(), text.as_bytes())?;
        let left = runs(&rt, rt.alloc(), line, (bytes, SOUND), sink, wanted)?;
        assert!(rt; left, "no record of {line:?}");
    }
    Ok(())
}
