//! Laws of networks of agents and sequencing nodes, for every body.
//!
//! Each law is the contract of a function that does nothing. The networks are those of abc_network,
//! and the statements are in `specs/`.
#![tactic(auto)]

mod bounds;
mod settling;
mod simulation;

pub use bounds::{cluster_is_bounded, ring_is_bounded, tree_is_bounded};
pub use settling::{cluster_settles, ring_settles, tree_settles};
pub use simulation::{cluster_simulates, ring_simulates, tree_simulates};
