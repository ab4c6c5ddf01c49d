//! The laws of reading traces back: a text fixes its trace, and what was written is read back.
//!
//! `specs/Plain.antt` says what a trace is, boxes aside; `specs/Renumbered.antt` what it is with
//! its names numbered as they are met; `specs/Laws.antt` has the laws.
#![tactic(auto)]

mod examples;
mod laws;

pub use examples::worked_renumbering;
pub use laws::{
    trace_answers_are_one, trace_answers_are_renumbered, traces_are_one, written_is_read_back,
};
