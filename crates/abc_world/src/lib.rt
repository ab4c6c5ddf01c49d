//! The network on one thread: its links in one table, its agents and sequencing nodes, and its
//! events, one after the other.
#![tactic(auto)]

mod awake;
mod cluster;
mod counter;
mod crew;
mod delivery;
mod event;
mod in_links;
mod laws;
mod links;
mod listing;
mod moving;
mod network;
mod node;
mod passing;
mod quiet;
mod records;
mod ring;
mod started;
mod store;
mod team;
mod tree;
mod world;

pub use abc_packet::NoMemory;
pub use counter::OneCounter;
pub use event::{Event, EventKind, Moved};
pub use laws::{clusters_have_laws, rings_have_laws, trees_have_laws};
pub use links::Links;
pub use network::Network;
pub use node::Node;
pub use started::Started;
pub use store::NodeStore;
pub use world::World;
