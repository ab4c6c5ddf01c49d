//! Counters, which give numbers.
//!
//! `specs/Draws.antt` says what a draw answers, `specs/Counter.antt` what contracts see of a plain
//! counter.
#![tactic(auto)]

mod laws;
mod limits;
mod numbers;
mod plain;

pub use abc_value::Grant;
pub use laws::first_numbers_are_drawn_once;
pub use limits::{MOST_LIMIT, counter_limits};
pub use numbers::Numbers;
pub use plain::PlainCounter;

#[cfg(test)]
mod tests;
