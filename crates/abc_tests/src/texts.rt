//! Texts, what is answered to them, and the limits of a source and of a run.
use crate::scene::{
    CANONICAL, CANONICAL_PRINT, GREETING, GREETING_TRACE, SOUND, list_of, runs, words_of,
};
use abc_cause::{Cause, CheckCause};
use abc_io::{MemorySink, MemorySource};
use abc_runner::{MOST_SOURCE, Status, run};
use abc_value::{List, NoMemory};
use std::alloc::Global;
use std::process::Abort;
use std::test::Fail;

/// Runs the words on a text, and wants the status and what is written.
fn answers(
    rt: &impl Abort,
    alloc: Global,
    line: &str,
    text: &str,
    wanted: (Status, &str),
) -> Result<(), Fail> {
    let bytes = list_of(alloc, text.as_bytes())?;
    runs(rt, alloc, line, (bytes, SOUND), SOUND, wanted)?;
    Ok(())
}

/// The refusal of a text, and its line.
fn refused(place: u32, cause: Cause) -> Status {
    Status::Refused { place, cause }
}

#[test]
fn texts_are_answered(rt: HostRuntime) -> Result<(), Fail> {
    for (line, text, written) in [
        ("print", CANONICAL, CANONICAL_PRINT),
        ("print", CANONICAL_PRINT, CANONICAL_PRINT),
        (
            "solo 1 0",
            "abc 1;\ndef K = (1) @ (tt) . K;\ncomp a { show; run K; }\n",
            "abc-trace 1 solo 1 0\n1 a:0 (1) @ (tt) -> -\nenv a {}\nlimit 1\n",
        ),
    ] {
        answers(&rt, rt.alloc(), line, text, (Status::Done, written))?;
    }
    Ok(())
}

#[test]
fn texts_are_refused(rt: HostRuntime) -> Result<(), Fail> {
    let no_component = Cause::Check(CheckCause::NoComponent);
    let open_variable = Cause::Check(CheckCause::OpenVariable);
    for (text, place, cause, line) in [
        ("", 0, Cause::Syntax, "abc: refused at 0: Syntax\n"),
        (
            "abc 1;",
            6,
            no_component,
            "abc: refused at 6: NoComponent\n",
        ),
        (
            "abc 1;\ncomp a { show; run ($y) @ (tt) . 0; }",
            12,
            open_variable,
            "abc: refused at 12: OpenVariable\n",
        ),
        (
            "abc 1;\ncomp a { show; run (1 @ (tt) . 0; }",
            29,
            Cause::Syntax,
            "abc: refused at 29: Syntax\n",
        ),
    ] {
        let wanted = (refused(place, cause), line);
        answers(&rt, rt.alloc(), "solo 10 0", text, wanted)?;
    }
    Ok(())
}

/// What becomes of the greeting's first bytes: an answer where they are a program, else a refusal.
fn front_is_done(alloc: Global, front: &[u8]) -> Result<Option<bool>, NoMemory> {
    let words = words_of(alloc, "solo 10 0")?;
    let bytes = list_of(alloc, front)?;
    let mut source = MemorySource::new(bytes, 4096, List::new(alloc));
    let mut sink = MemorySink::new(alloc, 4096, 4096, List::new(alloc))?;
    Ok(
        match run(alloc, words.as_slice(), &mut source, &mut sink).status {
            Status::Done => Some(true),
            Status::Refused { .. } => Some(false),
            _ => None,
        },
    )
}

/// Of the fronts of the greeting's 153 bytes those of 75, 76 and 152 are programs.
#[test]
fn fronts_of_a_text(rt: HostRuntime) -> Result<(), Fail> {
    let text = GREETING.as_bytes();
    assert_eq!(rt; text.len(), 153);
    for size in 0..153 {
        assert!(rt; size <= text.len());
        let done = front_is_done(rt.alloc(), &text[..size])?;
        let wanted = size == 75 || size == 76 || size == 152;
        assert_eq!(rt; done, Some(wanted), "{size} bytes");
    }
    Ok(())
}

/// The greeting with blanks behind it, up to so many bytes.
fn greeting_of(alloc: Global, size: usize) -> Result<List<u8>, NoMemory> {
    let mut bytes = list_of(alloc, GREETING.as_bytes())?;
    let blanks = size.saturating_sub(GREETING.len());
    for _ in 0..blanks {
        bytes.push(b' ')?;
    }
    Ok(bytes)
}

/// A source of 1,048,576 bytes is read, and one of a byte more is too long.
#[test]
fn longest_source(rt: HostRuntime) -> Result<(), Fail> {
    let alloc = rt.alloc();
    assert_eq!(rt; MOST_SOURCE, 1_048_576);
    let longest = (greeting_of(alloc, 1_048_576)?, SOUND);
    let done = (Status::Done, GREETING_TRACE);
    runs(&rt, alloc, "solo 10 0", longest, SOUND, done)?;
    let longer = (greeting_of(alloc, 1_048_577)?, SOUND);
    let too_long = (Status::TooLong, "abc: source too long\n");
    runs(&rt, alloc, "solo 10 0", longer, SOUND, too_long)?;
    Ok(())
}

/// A text of so many components that do nothing.
fn idle_components(alloc: Global, count: u32) -> Result<String, Fail> {
    let mut text = String::from_str(alloc, "abc 1;")?;
    for number in 0..count {
        text.push_str(format!(in alloc; "comp c{number}{{show;run 0;}}")?.as_str())?;
    }
    Ok(text)
}

/// How the words end with so many components.
fn status_of(alloc: Global, line: &str, components: u32) -> Result<(Status, bool), Fail> {
    let text = idle_components(alloc, components)?;
    let words = words_of(alloc, line)?;
    let bytes = list_of(alloc, text.as_bytes())?;
    let mut source = MemorySource::new(bytes, 4096, List::new(alloc));
    let mut sink = MemorySink::new(alloc, 4096, 4096, List::new(alloc))?;
    let status = run(alloc, words.as_slice(), &mut source, &mut sink).status;
    Ok((
        status,
        sink.written() == "abc: too much: 100000 x 11\n".as_bytes(),
    ))
}

/// The bound on limit and components: at it the program runs, past it it is too much for a run, and not
/// for the print.
#[test]
fn limits_are_too_much(rt: HostRuntime) -> Result<(), Fail> {
    let alloc = rt.alloc();
    let most = status_of(alloc, "solo 100000 0", 10)?;
    assert_eq!(rt; most, (Status::Done, false));
    let too_much = Status::TooMuch {
        limit: 100_000,
        components: 11,
    };
    let more = status_of(alloc, "solo 100000 0", 11)?;
    assert_eq!(rt; more, (too_much, true));
    let network = status_of(alloc, "run tree 100000 1 1 0", 11)?;
    assert_eq!(rt; network, (too_much, true));
    let printed = status_of(alloc, "print", 11)?;
    assert_eq!(rt; printed, (Status::Done, false));
    Ok(())
}
