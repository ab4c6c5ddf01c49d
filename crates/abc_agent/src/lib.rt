//! The agent: it moves one body of a network, one micro-step at a time.
//!
//! An agent asks for sequence numbers, takes the messages of others in order of number, and at each
//! number of its own it says what its body can say then. The table of its micro-steps is `AgentDoes`
//! of abc_network; `specs/Members.antt` says what a contract sees of an agent, `specs/Ways.antt` on
//! which links its packets go, and `specs/Settlings.antt` what it does where it settles.
#![tactic(auto)]

mod agent;
mod journal;
mod speech;
mod standing;
mod state;
mod ways;

pub use abc_body::Body;
pub use abc_packet::{Content, Deed, Entry, Log, NoMemory, Outlet, Packet, Stamped};
pub use abc_shape::Plan;
pub use agent::Agent;
