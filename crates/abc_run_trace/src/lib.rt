//! The trace of a run of a program.
//!
//! `specs/TraceOf.antt` says what it is. `trace_of` makes it of the runs that `solo` and `replay`
//! of `abc_system` hand out.
#![tactic(auto)]

mod copies;
mod laws;
mod lines;
mod making;

pub use laws::runs_have_traces;
pub use making::trace_of;
