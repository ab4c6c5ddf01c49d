//! The node of a tree: it leads requests up to the root, which draws, and replies back down; it
//! stores messages, and passes them in order of number to every neighbour but the one from which
//! they came.
//!
//! The table is `StoreDoes` of abc_network over its `tree_kind`.
#![tactic(auto)]

mod node;
mod rows;
mod ways;

pub use abc_packet::{Content, Deed, Entry, Log, NoMemory, Outlet, Packet, Stamped};
pub use abc_shape::Plan;
pub use node::TreeNode;
