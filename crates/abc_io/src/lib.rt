//! Where bytes come from and where they go: sources and sinks that count their faults, the calls
//! that read a source to its end and write a text whole, devices in memory, and adapters over
//! std's readers and writers.
#![tactic(auto)]

mod devices;
mod memory;
mod streams;
mod whole;

pub use devices::{Failed, Sink, Source};
pub use memory::{MemorySink, MemorySource};
pub use streams::{StdSink, StdSource};
pub use whole::{ReadRefusal, WriteFault, read_all, write_whole};

#[cfg(test)]
mod tests;
