//! What records of networks tell: the one order of all entries, the choices, and how many packets
//! each node handled.
#![tactic(auto)]

mod arrivals;
mod laws;
mod merged;
mod told;

pub use abc_net::{NoMemory, Record};
pub use arrivals::handled;
pub use laws::merges_are_one;
pub use merged::merge;
pub use told::choices;

#[cfg(test)]
mod tests;
