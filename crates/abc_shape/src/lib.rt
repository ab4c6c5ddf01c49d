//! The shapes of networks of sequencing nodes, and their plans: which links there are, and which of them
//! leads towards an agent.
#![tactic(auto)]

mod layout;
mod limits;
mod links;
mod numbers;
mod plan;
mod routes;
mod shape;

pub use layout::{LinkEnds, MOST_AGENTS, MOST_NODES};
pub use limits::limits_of_plans;
pub use plan::Plan;
pub use shape::Shape;

#[cfg(test)]
mod tests;
