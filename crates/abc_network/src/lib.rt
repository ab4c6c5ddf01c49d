//! Networks of agents and sequencing nodes, as definitions: what each may do in one micro-step, the
//! state of a network, its events and its runs, for each shape.
//!
//! The definitions are in `specs/`. What follows from them is in abc_network_laws.
#![tactic(auto)]

mod laws;

pub use laws::{links_have_their_ends, worked_events};
