//! Which programs have runs that traces tell, and what these runs say.
//!
//! Every accepted program is one (`specs/Traceable.antt`). `specs/Told.antt` says what the rows of a run
//! and its last environments are.
#![tactic(auto)]

mod laws;

pub use laws::{accepted_are_traceable, names_are_told, runs_are_told};
