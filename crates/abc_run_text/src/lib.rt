//! The trace of a run of a program.
//!
//! `specs/TextOf.antt` is the text of a run, told by its rows. `solo_text` makes a run by the rule
//! of places and writes each step's line as the step is made.
#![tactic(auto)]

mod line;
mod solo;

pub use line::{hearers, line_of, name_at};
pub use solo::solo_text;
