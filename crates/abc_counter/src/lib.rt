//! A counter that threads share, from which each draws with a seat of its own.
//!
//! `specs/Steps.antt` says which atomic steps there are, `specs/Rule.antt` what they all keep, and
//! `specs/Counters.antt` what contracts see of a counter and its seats.
#![tactic(auto)]

mod closing;
mod counter;
mod drawer;
mod laws;
mod rule;
mod views;

pub use abc_number::{Grant, MOST_LIMIT, Numbers};
pub use abc_value::{List, NoMemory};
pub use counter::{CounterSeat, SharedCounter};
pub use drawer::Drawer;
pub use laws::{counters_keep_their_rule, the_whole_knows_all, worked_counter};

#[cfg(test)]
mod tests;
