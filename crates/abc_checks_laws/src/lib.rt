//! What the facts of the checks say of all programs: laws that those who refuse programs rest on.
//!
//! The definitions are in `specs/`; there is no code here.
#![tactic(auto)]

mod laws;

pub use laws::{facts_hold_at_sites, programs_are_checked_or_bad};
