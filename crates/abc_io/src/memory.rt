//! Devices in memory, for tests: they move at most a piece a call and fail on chosen calls.
ghost use Rattle.std.specs.Prelude.{◌≡◌, ◌-◌, ◌<◌, ◌≤◌, ◌↔◌, ◌⊎◌, [], Some, length, take, min, IfOk, OnOk, OnErr, IsErr};
ghost use Rattle.std.specs.Io.KnownBytes.{Appends, Consumes, IsAtEnd, Keeps};
ghost use Rattle.abc_io.specs.Devices.{Rose, counted_on};

use crate::devices::{Failed, Sink, Source, count_on};
use abc_value::{List, NoMemory};
use std::alloc::Global;
use std::marker::Model;

/// Which calls of a device fail, how many calls there were, and how many of them failed.
#[derive(Debug, Drop)]
struct Calls {
    failing: List<u64>,
    made: u64,
    faults: u64,
}

impl Calls {
    ghost use Rattle.abc_io.specs.Memory.{IsDue};

    fn new(failing: List<u64>) -> Calls
        ensures { result ≡ record { failing = failing; made = 0; faults = 0 } }
    {
        Calls {
            failing,
            made: 0,
            faults: 0,
        }
    }

    /// Counts a call, which fails where its number is one of those that do.
    fn begin(&mut self) -> Result<(), Failed>
        ensures never_falls { self.old.faults ≤ self.new.faults }
        ensures due { IsErr result ↔ IsDue self.old.failing self.old.made }
        ensures ok { OnOk result (self.new ≡ record self.old { made = counted_on self.old.made }) }
        ensures err { OnErr result (self.new ≡ record self.old { made = counted_on self.old.made; faults = counted_on self.old.faults }) }
    {
        self.made = count_on(self.made);
        if self.failing.as_slice().contains(&self.made) {
            return Err(self.fault());
        }
        Ok(())
    }

    /// Counts a fault.
    fn fault(&mut self) -> Failed
        ensures counted { self.new ≡ record self.old { faults = counted_on self.old.faults } }
        ensures never_falls { self.old.faults ≤ self.new.faults }
    {
        self.faults = count_on(self.faults);
        Failed
    }
}

/// A source that gives the bytes of a list, at most `piece` a call. It fails on the calls of
/// `read` whose numbers, from 1, are in `failing`, and on no other.
#[derive(Debug, Drop)]
pub struct MemorySource {
    bytes: List<u8>,
    at: usize,
    piece: usize,
    calls: Calls,
}

impl Model for MemorySource {
    ghost use Rattle.std.specs.Prelude.{◌≤◌, ◌<◌, length, drop};
    ghost use Rattle.abc_io.specs.Memory.{Feed};

    ghost Value = { Feed };

    ghost view = { λ s. record {
      left = drop s.at s.bytes;
      piece = s.piece;
      failing = s.calls.failing;
      calls = s.calls.made;
      faults = s.calls.faults;
    } };

    ghost invariant = { λ s. (s.at ≤ length s.bytes) × (0 < s.piece) };
}

impl MemorySource {
    /// A source with all of `bytes` left, no call made and no fault counted.
    pub fn new(bytes: List<u8>, piece: usize, failing: List<u64>) -> MemorySource
        requires { 0 < piece }
        ensures { result ≡ record { left = bytes; piece = piece; failing = failing; calls = 0; faults = 0 } }
    {
        MemorySource {
            bytes,
            at: 0,
            piece,
            calls: Calls::new(failing),
        }
    }
}

impl Source for MemorySource {
    ghost use Rattle.abc_io.specs.Memory.{IsDue, feed_after, feed_failed};

    ghost fault_count = { λ s. s.faults };

    ghost left = { λ s. Some s.left };

    fn faults(&self) -> u64 {
        self.calls.faults
    }

    fn read(&mut self, into: &mut [u8]) -> Result<usize, Failed>
        ensures never_falls { self.old.faults ≤ self.new.faults }
        ensures within { IfOk result (λ n. n ≤ length into.new) }
        ensures moved { IfOk result (λ n. Consumes (Some self.old.left) (Some self.new.left) (take n into.new)) }
        ensures ended { IfOk result (λ n. n ≡ 0 → 0 < length into.new → IsAtEnd (Some self.new.left)) }
        ensures sound { OnOk result (self.new.faults ≡ self.old.faults) }
        ensures failed { OnErr result (Rose self.old.faults self.new.faults) }
        ensures stays { OnErr result (Keeps (Some self.old.left) (Some self.new.left)) }

        // What a source in memory answers, and what it is then.
        ensures fails { IsErr result ↔ IsDue self.old.failing self.old.calls }
        ensures given { IfOk result (λ n. n ≡ min (min self.old.piece (length into.new)) (length self.old.left)) }
        ensures ok { IfOk result (λ n. self.new ≡ feed_after self.old n) }
        ensures err { OnErr result (self.new ≡ feed_failed self.old) }
    {
        self.calls.begin()?;
        let rest = &self.bytes.as_slice()[self.at..];
        let n = copy_front(rest, into, self.piece);
        self.at += n;
        Ok(n)
    }
}

/// Copies as many bytes as both have, but at most `most`, and answers their number.
fn copy_front(from: &[u8], to: &mut [u8], most: usize) -> usize
    ensures count { result ≡ min (min most (length to.old)) (length from.now) }
    ensures copied { take result to.new ≡ take result from.now }
{
    let n = most.min(to.len()).min(from.len());
    to[..n].copy_from_slice(&from[..n]);
    n
}

/// A sink that keeps `room` bytes, and takes at most `piece` a call. It fails on the calls of
/// `write` whose numbers, from 1, are in `failing`, and where bytes come and no room is left.
#[derive(Debug, Drop)]
pub struct MemorySink {
    written: Vec<u8>,
    room: usize,
    piece: usize,
    calls: Calls,
}

impl Model for MemorySink {
    ghost use Rattle.std.specs.Prelude.{◌≤◌, ◌<◌, length, vec_len, vec_capacity};
    ghost use Rattle.abc_io.specs.Memory.{Store};

    ghost Value = { Store };

    ghost view = { λ s. record {
      written = s.written.items;
      room = s.room;
      piece = s.piece;
      failing = s.calls.failing;
      calls = s.calls.made;
      faults = s.calls.faults;
    } };

    ghost invariant = { λ s. (vec_len s.written ≤ s.room) × (s.room ≤ vec_capacity s.written) × (0 < s.piece) };
}

impl MemorySink {
    /// An empty sink, no call made and no fault counted. Memory is taken here alone, for `room`
    /// bytes; `NoMemory` comes where it can't be had.
    pub fn new(
        alloc: Global,
        room: usize,
        piece: usize,
        failing: List<u64>,
    ) -> Result<MemorySink, NoMemory>
        requires { 0 < piece }
        ensures { IfOk result (λ s. s ≡ record { written = []; room = room; piece = piece; failing = failing; calls = 0; faults = 0 }) }
    {
        let written = Vec::with_capacity(alloc, room)?;
        Ok(MemorySink {
            written,
            room,
            piece,
            calls: Calls::new(failing),
        })
    }

    /// The bytes written, first one first.
    pub fn written(&self) -> &[u8]
        ensures { result.now ≡ self.now.written }
    {
        self.written.as_slice()
    }
}

impl Sink for MemorySink {
    ghost use Rattle.abc_io.specs.Memory.{IsDue, store_after, store_failed};

    ghost fault_count = { λ s. s.faults };

    ghost told = { λ s. Some s.written };

    fn faults(&self) -> u64 {
        self.calls.faults
    }

    fn write(&mut self, bytes: &[u8]) -> Result<usize, Failed>
        ensures never_falls { self.old.faults ≤ self.new.faults }
        ensures within { IfOk result (λ n. n ≤ length bytes.now) }
        ensures takes_some { IfOk result (λ n. 0 < length bytes.now → 0 < n) }
        ensures appended { IfOk result (λ n. Appends (Some self.old.written) (Some self.new.written) (take n bytes.now)) }
        ensures sound { OnOk result (self.new.faults ≡ self.old.faults) }
        ensures failed { OnErr result (Rose self.old.faults self.new.faults) }
        ensures stays { OnErr result (Keeps (Some self.old.written) (Some self.new.written)) }

        // What a sink in memory answers, and what it is then.
        ensures fails { IsErr result ↔ (IsDue self.old.failing self.old.calls ⊎ ((0 < length bytes.now) × (self.old.room ≤ length self.old.written))) }
        ensures given { IfOk result (λ n. n ≡ min (min self.old.piece (length bytes.now)) (self.old.room - length self.old.written)) }
        ensures ok { IfOk result (λ n. self.new ≡ store_after self.old (take n bytes.now)) }
        ensures err { OnErr result (self.new ≡ store_failed self.old) }
    {
        let left = self.room - self.written.len();
        let n = self.piece.min(bytes.len()).min(left);
        let calls = &mut self.calls;
        calls.begin()?;
        if n == 0 && !bytes.is_empty() {
            return Err(calls.fault());
        }
        self.written.extend_from_slice(&bytes[..n]).unwrap();
        Ok(n)
    }
}
