//! The predicates of traces, read back from their texts.
#![tactic(auto)]

mod alone;
mod closed;
mod laws;
mod read;
mod renumber;

pub use laws::{preds_are_one, preds_stay};
pub use read::read_sent;

#[cfg(test)]
mod tests;
