//! Words: which are a command, and which.
use crate::scene::words_of;
use abc_runner::{Command, Shape};
use abc_value::NoMemory;
use std::alloc::Global;
use std::test::Fail;

/// Words that are a command which is not built, a line for each.
const OTHERS: &str = "gen 0 2 cluster
gen 65536 64 tree";

/// Words that are no command, a line for each; the first has none.
const NO_COMMANDS: &str = "
solo
solo 10
solo 10 0 0
solo 0 0
solo 100001 0
solo 10 4294967296
solo 010 0
solo 10 00
solo +10 0
solo 10 -0
solo -10 0
solo 10 18446744073709551616
solo 99999999999999999999999999 0
solo 1e3 0
solo ten 0
Solo 10 0
solo10 0 0
sola 10 0
print 1
prints
run cluster 10 1 1
run cluster 10 1 1 0 0
run star 10 1 1 0
run cluster 0 1 1 0
run cluster 100001 1 1 0
run cluster 10 0 1 0
run cluster 10 65 1 0
run cluster 10 1 0 0
run cluster 10 1 17 0
run cluster 10 1 1 4294967296
run cluster 10 1 01 0
run token 10 1 1 0
gen 65537 4 ring
gen 2 1 ring
gen 2 65 ring
gen 2 4 line
gen 2 4
gen 02 4 ring
live ring 10 1 2 0
check solo
ring 10 1 1 0 run";

fn read(alloc: Global, line: &str) -> Result<Option<Command>, NoMemory> {
    let words = words_of(alloc, line)?;
    Ok(Command::read(words.as_slice()))
}

#[test]
fn commands_are_read(rt: HostRuntime) -> Result<(), Fail> {
    let solo = |limit: u32, pick: u64| Some(Command::Solo { limit, pick });
    let least = Command::Net {
        shape: Shape::Cluster,
        limit: 1,
        nodes: 1,
        workers: 1,
        pick: 0,
    };
    let greatest = Command::Net {
        shape: Shape::Ring,
        limit: 100_000,
        nodes: 64,
        workers: 16,
        pick: 4_294_967_295,
    };
    let tree = Command::Net {
        shape: Shape::Tree,
        limit: 10,
        nodes: 7,
        workers: 4,
        pick: 0,
    };
    for (line, command) in [
        ("solo 10 0", solo(10, 0)),
        ("solo 1 4294967295", solo(1, 4_294_967_295)),
        ("solo 100000 7", solo(100_000, 7)),
        ("run cluster 1 1 1 0", Some(least)),
        ("run ring 100000 64 16 4294967295", Some(greatest)),
        ("run tree 10 7 4 0", Some(tree)),
        ("print", Some(Command::Print)),
    ] {
        assert_eq!(rt; read(rt.alloc(), line)?, command, "at {line:?}");
    }
    for line in OTHERS.lines() {
        let found = read(rt.alloc(), line)?;
        assert_eq!(rt; found, Some(Command::Other), "at {line:?}");
    }
    Ok(())
}

#[test]
fn other_words_are_none(rt: HostRuntime) -> Result<(), Fail> {
    for line in NO_COMMANDS.lines() {
        assert_eq!(rt; read(rt.alloc(), line)?, None, "at {line:?}");
    }
    Ok(())
}

/// An empty word is no word of a command.
#[test]
fn empty_words_are_no_command(rt: HostRuntime) -> Result<(), Fail> {
    let mut words = Vec::new(rt.alloc());
    words.push(String::from_str(rt.alloc(), "solo")?)?;
    words.push(String::from_str(rt.alloc(), "")?)?;
    words.push(String::from_str(rt.alloc(), "0")?)?;
    assert_eq!(rt; Command::read(words.as_slice()), None);
    Ok(())
}
