//! Why a legal record ends: the limit is reached, or nobody can speak.
//!
//! A record has an answer Closed only where all numbers up to the limit are drawn. So it is enough
//! that an agent which was told so was told by a draw, and that every other agent is idle at the
//! end, where an idle agent can't speak. No proof of this names a shape; a shape owes only that its
//! nodes make up no such answer.
#![tactic(auto)]

mod laws;

pub use laws::{program_records_end_right, records_end_both_ways, records_end_right};
