//! Traces, read back from their texts.
//!
//! The definitions, which bytes are the text of a trace and where others go wrong, are those of
//! abc_trace_order.
#![tactic(auto)]

mod heads;
mod places;
mod read;
mod steps;
#[cfg(test)]
mod tests;
mod words;

pub use abc_trace_order::TraceRefusal;
pub use read::read_trace;
