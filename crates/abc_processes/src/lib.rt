//! The parser of processes. A list of tokens that it is given is cut before a token that passes a
//! limit, so it counts no expressions, variables and brackets.
#![tactic(auto)]

mod heads;
mod lists;
mod marks;
mod processes;
mod terms;
mod updates;

pub use processes::{boxed_process, process};
