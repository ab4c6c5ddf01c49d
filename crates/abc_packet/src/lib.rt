//! What the parts of a run hand to one another: choices, packets, logs, and where packets are sent.
//!
//! A `Choice` names a step of a system. A `Packet` goes over a link between two actors, an actor's
//! `Log` has an entry for each of its micro-steps, and an `Outlet` is where an actor sends. The
//! definitions are in `specs/`.
#![tactic(auto)]

mod carried;
mod choice;
mod crossing;
mod laws;
mod limits;
mod log;
mod memory;
mod outlet;
mod packets;
mod stamped;

pub use abc_value::{Grant, List, NoMemory, Owner};
pub use choice::Choice;
pub use laws::{sendings_append, worked_logs};
pub use limits::{MOST_CLOCK, MOST_NUMBER, packet_limits};
pub use log::{Deed, Entry, Log};
pub use memory::MemoryOutlet;
pub use outlet::Outlet;
pub use packets::{Content, Packet};
pub use stamped::Stamped;

#[cfg(test)]
mod tests;
