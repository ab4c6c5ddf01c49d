//! Nodes that store messages and pass them on in order of number. The nodes of a ring and of a tree
//! are of this kind; their rows say what is their own.
//!
//! The table is `StoreDoes` of abc_network. The definitions are in `specs/`: `Handlings.antt` says
//! what rows answer of a request or a reply, `Storing.antt` what contracts see of a node.
#![tactic(auto)]

mod asking;
mod deeds;
mod handling;
mod keeping;
mod node;
mod parcel;
mod passing;
mod rows;
mod stock;

pub use abc_packet::{Content, Deed, Entry, List, Log, NoMemory, Outlet, Packet, Stamped};
pub use handling::Handling;
pub use node::StoreNode;
pub use rows::Rows;
