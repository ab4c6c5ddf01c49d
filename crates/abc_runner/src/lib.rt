//! The top call: words, a source and a sink to an outcome.
#![tactic(auto)]

mod answer;
mod bound;
mod command;
mod laws;
mod limits;
mod network;
mod status;
mod text;
mod top;

pub use abc_moves::Label;
pub use abc_record_text::Record;
pub use abc_shape::Shape;
pub use command::Command;
pub use laws::{answers_are_one, limits_of_commands, solo_in_its_own_words};
pub use limits::MOST_SOURCE;
pub use status::Status;
pub use top::{Outcome, run};
