//! The canonical print of programs and predicates.
//!
//! One function a form appends its text to what stands before it; `specs/Bytes.antt` says which
//! bytes, by the table of forms in `abc_printed`.
#![tactic(auto)]

mod laws;
mod literals;
mod processes;
mod programs;
mod terms;
mod words;

pub use laws::literals_are_one;
pub use literals::print_literal;
pub use programs::print_program;
pub use terms::{append_pred, print_pred};
pub use words::print_name;

#[cfg(test)]
mod tests;
