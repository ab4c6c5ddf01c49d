//! Runs of networks: two that are followed event by event, with components as bodies, when an agent
//! can have its turn, how far clocks go, and which numbers are drawn.
//!
//! Each law is the contract of a function that does nothing. The networks are those of abc_network,
//! and the statements are in `specs/`.
#![tactic(auto)]

mod clocks;
mod draws;
mod turning;
mod worked;

pub use clocks::{clocks_are_low, clocks_count_events};
pub use draws::numbers_are_drawn_once;
pub use turning::{components_turn_at_their_number, turns_wait_for_nobody};
pub use worked::{a_late_output, an_early_number};
