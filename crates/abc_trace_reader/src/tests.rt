//! Texts of traces, and what reading each answers.
use crate::{TraceRefusal, read_trace};
use abc_trace::{Trace, write_trace};
use std::alloc::{AllocError, Global};
use std::process::Abort;
use std::test::Fail;

const SOLO: &[u8] = b"abc-trace 1 solo 10 0
1 alice:0 (\"hi\") @ (role = \"b\") -> bob:0
env alice { role = \"a\"; }
env bob { role = \"b\"; got = \"hi\"; }
quiet 1
";

const NET: &[u8] = b"abc-trace 1 tree 2 2 9
1 Ann:65535 (1, none, {2, true}) @ (a = 5 and not ff) -> Bob:0, Cid:1
2 Bob -
env Ann {}
env Bob { a = 5; b = false; }
node 0 12
node 1 18446744073709551615
limit 2
";

/// What stands in place of a text's answer: how many names, lines, components and nodes, or the refusal.
const ANSWERS: [(&[u8], &str); 16] = [
    (b"", "Missing at 0"),
    (b"abc-trace 1 solo 10 0", "BadLine at 0"),
    (b"abc-trace 1 solo 0 0\n", "BadLine at 0"),
    (b"abc-trace 1 solo 1 0\n", "Missing at 21"),
    (b"abc-trace 1 solo 1 0\nquiet 0\n", "BadLine at 21"),
    (
        b"abc-trace 1 solo 1 0\nenv a {}\nquiet 0\n",
        "1 names, 0 lines, 1 components, 0 nodes",
    ),
    (
        b"abc-trace 1 solo 1 0\nenv a {}\nlimit 0\n",
        "BadLine at 30",
    ),
    (
        b"abc-trace 1 solo 1 0\nenv a {}\nenv a {}\nquiet 0\n",
        "BadLine at 30",
    ),
    (b"abc-trace 1 solo 1 0\n1 a -\n", "BadLine at 21"),
    (
        b"abc-trace 1 solo 1 0\n1 a:0 () @ (x = this.y) -> -\n",
        "BadLine at 21",
    ),
    (
        b"abc-trace 1 solo 1 0\n1 a:0 () @ (tt) -> -\n2 a:0 () @ (tt) -> -\n",
        "BadLine at 42",
    ),
    (
        b"abc-trace 1 solo 1 0\nenv a {}\nnode 0 0\n",
        "BadLine at 30",
    ),
    (
        b"abc-trace 1 ring 1 1 0\nenv a {}\nquiet 0\n",
        "BadLine at 32",
    ),
    (
        b"abc-trace 1 ring 1 1 0\nenv a {}\nnode 0 0\nquiet 0\nquiet 0\n",
        "BadLine at 49",
    ),
    (SOLO, "4 names, 1 lines, 2 components, 0 nodes"),
    (NET, "5 names, 2 lines, 2 components, 2 nodes"),
];

fn shown(alloc: Global, answer: &Result<Trace, TraceRefusal>) -> Result<String, AllocError> {
    match answer {
        Err(TraceRefusal::NoMemory) => format!(in alloc; "no memory"),
        Err(TraceRefusal::BadLine { place }) => format!(in alloc; "BadLine at {place}"),
        Err(TraceRefusal::Missing { place }) => format!(in alloc; "Missing at {place}"),
        Ok(trace) => {
            let names = trace.names.len();
            let lines = trace.lines.len();
            let components = trace.finals.len();
            let nodes = trace.handled.len();
            format!(in alloc;
                "{names} names, {lines} lines, {components} components, {nodes} nodes"
            )
        }
    }
}

/// A text is answered so, and a trace that is read is written as its text.
fn answers(rt: &impl Abort, alloc: Global, text: &[u8], wanted: &str) -> Result<(), Fail> {
    assert!(rt; text.len() < 100000);
    let answer = read_trace(alloc, text);
    let found = shown(alloc, &answer)?;
    assert!(rt; found.as_str() == wanted, "{found:?} for {wanted:?}");
    if let Ok(trace) = &answer {
        let Ok(written) = write_trace(alloc, trace) else {
            assert!(rt; false, "no memory");
            return Ok(());
        };
        assert!(rt;
            written.as_slice() == text,
            "what was read is written otherwise"
        );
    }
    Ok(())
}

#[test]
fn texts_are_answered(rt: HostRuntime) -> Result<(), Fail> {
    for (text, wanted) in &ANSWERS {
        answers(&rt, rt.alloc(), text, wanted)?;
    }
    Ok(())
}
