//! The node of a cluster: it gives numbers out, and sends each message on to all but its sender.
//!
//! It keeps nothing beside its log. Its table is `ClusterDoes` of abc_network.
//! `specs/Stations.antt` says where such a node is and names its table, `specs/Rows.antt` says which
//! row of the table a packet has.
#![tactic(auto)]

mod arrival;
mod node;
mod station;

pub use abc_number::Numbers;
pub use abc_packet::{Log, NoMemory, Outlet, Stamped};
pub use abc_shape::Plan;
pub use node::ClusterNode;

#[cfg(test)]
mod tests;
