//! The canonical text of programs and predicates, as definitions.
//!
//! `specs/Forms.antt` is the table of forms, by grades and places: a term as lexemes and what stands
//! between them. `specs/Parts.antt` is how these are spelled.
#![tactic(auto)]

mod examples;

pub use examples::{worked_operands, worked_preds, worked_processes, worked_program};
