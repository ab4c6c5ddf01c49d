//! Laws of the canonical text and the limits of texts: a print stays within the limits of every text of
//! its term.
#![tactic(auto)]

mod laws;

pub use laws::{closed_prints_are_within, prints_are_within};
