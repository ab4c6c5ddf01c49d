//! Wait lists, in which items wait under their numbers until it is their turn.
//!
//! `specs/Waits.antt` says what contracts see of a wait list, `specs/Changes.antt` what a call changes in it.
#![tactic(auto)]

mod laws;
mod list;
mod window;

pub use abc_value::NoMemory;
pub use laws::{nothing_past_waits, wait_lists_are_their_items};
pub use list::WaitList;

#[cfg(test)]
mod tests;
