//! The node of a ring: it draws for the agents that are homed at it, stores messages, and passes
//! them in order of number to these agents and along the ring.
//!
//! The table is `StoreDoes` of abc_network over its `ring_kind`.
#![tactic(auto)]

mod node;
mod rows;

pub use abc_packet::{Content, Deed, Entry, Log, NoMemory, Outlet, Packet, Stamped};
pub use abc_shape::Plan;
pub use node::RingNode;
