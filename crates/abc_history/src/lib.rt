//! What the actors of a network share in code: each keeps a clock and a log, and makes the packets
//! that it sends before it changes anything.
//!
//! The definitions are in `specs/`: `Histories.antt` says what contracts see of a history,
//! `Nodes.antt` what they see of a node and of an arrival at one.
#![tactic(auto)]

mod arriving;
mod history;
mod sending;

pub use abc_packet::NoMemory;
pub use arriving::{reply, send_on};
pub use history::History;
pub use sending::send_all;

#[cfg(test)]
mod tests;
