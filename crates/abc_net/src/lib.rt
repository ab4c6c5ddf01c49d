//! What a run of a network leaves: its record.
#![tactic(auto)]

mod record;

pub use abc_packet::{Log, NoMemory};
pub use record::Record;
