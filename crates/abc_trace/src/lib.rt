//! Traces: what happened in a run, and its text.
//!
//! `specs/Lines.antt` has the text of each kind of line, `specs/Texts.antt` that of a trace; `specs/WellFormed.antt` says which traces have
//! one, and `specs/Met.antt` in which order its words are met.
#![tactic(auto)]

mod examples;
mod limits;
mod lines;
mod numbers;
mod texts;
mod trace;

pub use abc_shape::Shape;
pub use examples::{worked_ends, worked_heads, worked_lines, worked_traces};
pub use limits::{MOST_LIMIT, MOST_NODES, MOST_PICK, MOST_PLACE, trace_limits};
pub use lines::{write_end, write_env, write_head, write_line, write_node};
pub use texts::write_trace;
pub use trace::{EnvLine, Head, Line, Said, Trace};
