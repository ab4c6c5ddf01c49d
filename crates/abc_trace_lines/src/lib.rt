//! The lines of traces, taken apart: what a line says, in words.
//!
//! `specs/Plain.antt` has lines in words with their texts, `specs/Spelled.antt` says which of them
//! stand in a trace, the lines around them aside.
#![tactic(auto)]

mod counts;
mod differ;
mod env;
mod fronts;
mod head;
mod heard;
mod items;
mod laws;
mod line;
mod names;
mod numbers;
mod parts;
mod said;

pub use laws::lines_are_one;
pub use line::read_line;
pub use parts::{LineParts, SaidParts};

#[cfg(test)]
mod tests;
