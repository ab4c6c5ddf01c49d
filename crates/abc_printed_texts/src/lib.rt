//! Laws of the canonical text, from its bytes: what is printed of an accepted program is accepted as that
//! program, and of the closed predicate of an output as that predicate.
#![tactic(auto)]

mod laws;

pub use laws::{outputs_are_read, prints_are_accepted, prints_are_canonical, prints_are_read};
