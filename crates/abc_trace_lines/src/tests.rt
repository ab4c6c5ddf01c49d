use super::*;
use abc_value::NoMemory;
use std::alloc::Global;
use std::test::Fail;

/// Lines, each with the kind that it is of.
const LINES: [(&[u8], &str); 26] = [
    (b"abc-trace 1 solo 10 0", "first"),
    (b"abc-trace 1 solo 100000 4294967295", "first"),
    (b"abc-trace 1 solo 100001 0", "none"),
    (b"abc-trace 1 solo 0 0", "none"),
    (b"abc-trace 1 ring 5 64 7", "first"),
    (b"abc-trace 1 ring 5 65 7", "none"),
    (b"1 alice:0 (\"hi\") @ (role = \"b\") -> bob:0", "said"),
    (b"1 alice:65535 () @ (tt) -> -", "said"),
    (b"1 alice:65536 () @ (tt) -> -", "none"),
    (b"01 alice:0 () @ (tt) -> -", "none"),
    (b"1 alice:0 () @ (tt) -> bob:0, carol:1", "said"),
    (b"1 alice:0 () @ (tt) -> bob:0, bob:1", "none"),
    (b"1 alice:0 (1, 2, 3, 4, 5, 6, 7, 8) @ (tt) -> -", "said"),
    (b"1 alice:0 (1, 2, 3, 4, 5, 6, 7, 8, 9) @ (tt) -> -", "none"),
    (b"2 carol -", "nothing"),
    (b"2 this -", "none"),
    (b"env alice { role = \"a\"; }", "env"),
    (b"env alice {}", "env"),
    (b"env alice { a = none; }", "none"),
    (b"env alice { a = 1; a = 2; }", "none"),
    (b"node 0 12", "node"),
    (b"limit 3", "last"),
    (b"quiet 18446744073709551615", "last"),
    (b"quiet 18446744073709551616", "none"),
    (b"quiet 1 ", "none"),
    (b"", "none"),
];

/// The kind of line that the bytes are read as.
fn kind(alloc: Global, line: &[u8]) -> Result<&'static str, NoMemory> {
    match read_line(alloc, line)? {
        Some(LineParts::First(_)) => Ok("first"),
        Some(LineParts::Number(_, _, Some(_))) => Ok("said"),
        Some(LineParts::Number(_, _, None)) => Ok("nothing"),
        Some(LineParts::Env(_, _)) => Ok("env"),
        Some(LineParts::Node(_, _)) => Ok("node"),
        Some(LineParts::Last(_, _)) => Ok("last"),
        None => Ok("none"),
    }
}

#[test]
fn kinds_of_lines(rt: HostRuntime) -> Result<(), Fail> {
    for (line, expected) in LINES {
        assert_eq!(rt; kind(rt.alloc(), line)?, expected);
    }
    Ok(())
}

#[test]
fn what_was_said(rt: HostRuntime) -> Result<(), Fail> {
    let line = b"12 alice:3 (\")\", {1}) @ (x = \")\") -> bob:0, carol:7";
    let read = read_line(rt.alloc(), line)?;
    let Some(LineParts::Number(n, sender, Some(said))) = read else {
        assert!(rt; false, "the line of a number");
        return Ok(());
    };
    assert_eq!(rt; n, 12);
    assert_eq!(rt; sender, b"alice".as_slice());
    assert_eq!(rt; said.place, 3);
    assert_eq!(rt; said.values.len(), 2);
    assert_eq!(rt; said.pred, b"x = \")\"".as_slice());
    assert_eq!(rt; said.heard.len(), 2);
    Ok(())
}
