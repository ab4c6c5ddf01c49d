//! Sources and sinks over std's readers and writers.
ghost use Rattle.std.specs.Prelude.{◌≡◌};

use crate::devices::{Failed, Sink, Source, count_on};
use std::io::{Read, Write};

/// A source over a reader. Each `Err` of the reader is a fault, an interrupted read too. Of a real
/// stream nothing is told; of a reader over memory, what the reader tells.
#[derive(Drop)]
pub struct StdSource<R> {
    reader: R,
    faults: u64,
}

impl<R: Read> StdSource<R> {
    /// A source over this reader, no fault counted.
    pub fn new(reader: R) -> StdSource<R>
        ensures no_faults { ⟦<StdSource<R> as Source>⟧.fault_count result ≡ 0 }
        ensures bytes { ⟦<StdSource<R> as Source>⟧.left result ≡ R.remaining reader }
    {
        StdSource { reader, faults: 0 }
    }
}

impl<R: Read> Source for StdSource<R> {
    ghost fault_count = { λ s. s.faults };

    ghost left = { λ s. R.remaining s.reader };

    fn faults(&self) -> u64 {
        self.faults
    }

    fn read(&mut self, into: &mut [u8]) -> Result<usize, Failed> {
        match self.reader.read(into) {
            Ok(n) => Ok(n),
            Err(_) => {
                self.faults = count_on(self.faults);
                Err(Failed)
            }
        }
    }
}

/// A sink over a writer. Each `Err` of the writer is a fault, an interrupted write too, and so is
/// taking nothing of a non-empty piece. Nothing is flushed, so the writer is to keep nothing back.
/// Of a real stream nothing is told; of a writer over memory, what the writer tells.
#[derive(Drop)]
pub struct StdSink<W> {
    writer: W,
    faults: u64,
}

impl<W: Write> StdSink<W> {
    /// A sink over this writer, no fault counted.
    pub fn new(writer: W) -> StdSink<W>
        ensures no_faults { ⟦<StdSink<W> as Sink>⟧.fault_count result ≡ 0 }
        ensures bytes { ⟦<StdSink<W> as Sink>⟧.told result ≡ W.contents writer }
    {
        StdSink { writer, faults: 0 }
    }
}

impl<W: Write> Sink for StdSink<W> {
    ghost fault_count = { λ s. s.faults };

    ghost told = { λ s. W.contents s.writer };

    fn faults(&self) -> u64 {
        self.faults
    }

    fn write(&mut self, bytes: &[u8]) -> Result<usize, Failed> {
        match self.writer.write(bytes) {
            Ok(n) if n > 0 || bytes.is_empty() => Ok(n),
            _ => {
                self.faults = count_on(self.faults);
                Err(Failed)
            }
        }
    }
}
