//! What a legal record of a program's components tells: a run of the program by the calculus.
#![tactic(auto)]

mod laws;

pub use laws::program_records_are_runs;
