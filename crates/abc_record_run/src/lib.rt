//! Runs the components of a program as a network on one thread, and hands out the record.
//!
//! `specs/RunRecords.antt` says which network a record is of; that it is legal for the program is
//! said by abc_record_text's `IsLegalFor`.
#![tactic(auto)]

mod bodies;
mod network;
mod run;

pub use abc_net::Record;
pub use network::run_bodies;
pub use run::{run_in_order, run_network};
