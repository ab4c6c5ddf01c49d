//! What no clause says: that calls succeed with ample memory, and examples worked by hand.
use super::*;
use abc_value::{List, NoMemory};
use std::alloc::Global;
use std::io::{Error, ErrorKind, Read, Result as IoResult, Write};
use std::test::Fail;

/// The bytes 0, 1, 2 .. 250, 0, 1 .., this many.
fn bytes_of(alloc: Global, count: usize) -> Result<List<u8>, NoMemory> {
    let mut bytes = List::new(alloc);
    let mut next = 0;
    for _ in 0..count {
        bytes.push(next)?;
        next = if next < 250 { next + 1 } else { 0 };
    }
    Ok(bytes)
}

fn numbers_of(alloc: Global, numbers: &[u64]) -> Result<List<u64>, NoMemory> {
    let mut list = List::new(alloc);
    for number in numbers {
        list.push(*number)?;
    }
    Ok(list)
}

/// A reader and writer that fails at each call.
#[derive(Drop)]
struct Broken;

impl Read for Broken {
    fn read(&mut self, _into: &mut [u8]) -> IoResult<usize> {
        Err(Error::from(ErrorKind::BrokenPipe))
    }
}

impl Write for Broken {
    fn write(&mut self, _bytes: &[u8]) -> IoResult<usize> {
        Err(Error::from(ErrorKind::BrokenPipe))
    }

    fn flush(&mut self) -> IoResult<()> {
        Ok(())
    }
}

/// A source of `held` bytes, which gives `piece` a call and fails on the call `failing`, is read
/// with the limit `max`: the refusal, if one comes, and how many bytes a second reading gives.
#[test]
fn reads_to_the_end(rt: HostRuntime) -> Result<(), Fail> {
    let fault = Some(ReadRefusal::Fault);
    let too_long = Some(ReadRefusal::TooLong);
    for (held, max, piece, failing, refusal, later) in [
        (0, 0, 1, 0, None, 0),
        (1, 0, 1, 0, too_long, 0),
        (100, 100, 64, 0, None, 0),
        (100, 99, 64, 0, too_long, 0),
        (100, 99, 1, 0, too_long, 0),
        (101, 99, 1, 0, too_long, 1),
        (100, 100, 64, 1, fault, 100),
        (100, 100, 64, 2, fault, 36),
        (100, 100, 64, 3, fault, 0),
        (100, 100, 64, 9, None, 0),
        (10_000, 10_000, 10_000, 0, None, 0),
        (10_000, 9_999, 10_000, 0, too_long, 0),
    ] {
        assert!(rt; piece > 0);
        let all = bytes_of(rt.alloc(), held)?;
        let failing = numbers_of(rt.alloc(), &[failing])?;
        let mut source = MemorySource::new(bytes_of(rt.alloc(), held)?, piece, failing);
        let answer = read_all(rt.alloc(), &mut source, max);
        match answer {
            Ok(bytes) => {
                assert_eq!(rt; refusal, None, "{held} bytes, at most {max}, by {piece}");
                assert_eq!(rt;
                    bytes.as_slice(),
                    all.as_slice(),
                    "{held} bytes, by {piece}"
                );
            }
            Err(found) => assert_eq!(rt; Some(found), refusal, "{held} bytes, at most {max}"),
        }
        let faults = if refusal == fault { 1 } else { 0 };
        assert_eq!(rt;
            source.faults(),
            faults,
            "{held} bytes, at most {max}, by {piece}"
        );
        let Ok(rest) = read_all(rt.alloc(), &mut source, 20_000) else {
            assert!(rt; false, "the second reading of {held} bytes by {piece}");
            return Ok(());
        };
        assert_eq!(rt;
            rest.len(),
            later,
            "left of {held} bytes, at most {max}, by {piece}"
        );
    }
    Ok(())
}

/// So many bytes are written to a sink with this room, which takes `piece` a call and fails on the
/// call `failing`: how many it holds then, and how many faults it counts.
#[test]
fn writes_whole(rt: HostRuntime) -> Result<(), Fail> {
    for (count, room, piece, failing, held, faults) in [
        (0, 0, 1, 0, 0, 0),
        (1, 0, 1, 0, 0, 1),
        (100, 100, 16, 0, 100, 0),
        (100, 100, 16, 3, 32, 1),
        (100, 100, 16, 7, 96, 1),
        (100, 100, 16, 8, 100, 0),
        (100, 100, 16, 1, 0, 1),
        (100, 20, 16, 0, 20, 1),
        (100, 99, 200, 0, 99, 1),
        (100, 200, 200, 0, 100, 0),
    ] {
        assert!(rt; piece > 0);
        let all = bytes_of(rt.alloc(), count)?;
        let failing = numbers_of(rt.alloc(), &[failing])?;
        let mut sink = MemorySink::new(rt.alloc(), room, piece, failing)?;
        let answer = write_whole(&mut sink, all.as_slice());
        let wanted = if held == count {
            Ok(())
        } else {
            Err(WriteFault { written: held })
        };
        assert_eq!(rt; answer, wanted, "{count} bytes, room {room}, by {piece}");
        assert_eq!(rt;
            sink.faults(),
            faults,
            "{count} bytes, room {room}, by {piece}"
        );
        assert!(rt; held <= all.len());
        assert_eq!(rt;
            sink.written(),
            &all.as_slice()[..held],
            "{count} bytes, room {room}"
        );
    }
    Ok(())
}

#[test]
fn reads_streams(rt: HostRuntime) -> Result<(), Fail> {
    let text: &[u8] = b"abc 1;";
    for (max, refusal) in [(7, None), (6, None), (5, Some(ReadRefusal::TooLong))] {
        let mut source = StdSource::new(text);
        let answer = read_all(rt.alloc(), &mut source, max);
        assert_eq!(rt; source.faults(), 0, "at most {max}");
        match answer {
            Ok(bytes) => {
                assert_eq!(rt; refusal, None, "at most {max}");
                assert_eq!(rt; bytes.as_slice(), text, "at most {max}");
            }
            Err(found) => assert_eq!(rt; Some(found), refusal, "at most {max}"),
        }
    }
    let mut source = StdSource::new(Broken);
    let answer = read_all(rt.alloc(), &mut source, 6);
    assert_eq!(rt; answer.err(), Some(ReadRefusal::Fault));
    assert_eq!(rt; source.faults(), 1);
    Ok(())
}

#[test]
fn writes_streams(rt: HostRuntime) -> Result<(), Fail> {
    let text: &[u8] = b"abc 1;";
    let mut written = Vec::new(rt.alloc());
    let mut sink = StdSink::new(&mut written);
    assert_eq!(rt; write_whole(&mut sink, text), Ok(()));
    assert_eq!(rt; sink.faults(), 0);
    assert_eq!(rt; written.as_slice(), text);

    let mut place = [0u8; 4];
    let mut sink = StdSink::new(&mut place[..]);
    assert_eq!(rt;
        write_whole(&mut sink, text),
        Err(WriteFault { written: 4 })
    );
    assert_eq!(rt; sink.faults(), 1);

    let mut sink = StdSink::new(Broken);
    assert_eq!(rt;
        write_whole(&mut sink, text),
        Err(WriteFault { written: 0 })
    );
    assert_eq!(rt; sink.faults(), 1);
    Ok(())
}
