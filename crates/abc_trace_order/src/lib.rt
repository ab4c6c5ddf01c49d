//! In which order the lines of a trace stand, and what was read of one so far.
//!
//! `specs/Texts.antt` says which bytes are the text of a trace, and where others go wrong;
//! `specs/Order.antt` in which order lines stand, and `specs/Reading.antt` what each makes of what was
//! read.
#![tactic(auto)]

mod laws;
mod reading;
mod refusal;

pub use laws::bad_texts_are_none;
pub use reading::{Reading, Step};
pub use refusal::TraceRefusal;
