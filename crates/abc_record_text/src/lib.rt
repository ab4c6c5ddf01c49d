//! The trace of a record.
//!
//! `specs/LegalRecords.antt` says which records are legal for a program, and `specs/RecordTexts.antt`
//! what their text is. `record_text` makes the run of the record's choices on one system, and writes
//! each step's line as the step is made.
#![tactic(auto)]

mod steps;
mod told;

pub use abc_net::Record;
pub use told::record_text;
