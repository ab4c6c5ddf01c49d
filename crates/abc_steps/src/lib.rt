//! How a system runs by one rule of places, which fixes the run, and laws of that rule.
//!
//! AbC leaves open who speaks and which of several moves is made. The rule here decides it by a number
//! that rises with each step. The definitions are in `specs/`; there is no code here.
#![tactic(auto)]

mod laws;

pub use laws::{
    alike_systems_have_the_same_rows, alike_systems_run_alike, rows_are_runs, turn_rows_are_turns,
    turns_are_runs, turns_fix_the_run, worked_rows, worked_turns,
};
