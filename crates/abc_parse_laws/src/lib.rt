//! Each text is accepted or refused.
//!
//! The definitions are in `specs/`; there is no code here.
#![tactic(auto)]

mod laws;

pub use laws::texts_are_accepted_or_refused;
