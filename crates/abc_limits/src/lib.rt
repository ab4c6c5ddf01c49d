//! The limits of a text, found in one pass over its tokens.
#![tactic(auto)]

mod brackets;
mod look;
mod pred;
mod program;
mod scalars;

pub use pred::first_limit_of_pred;
pub use program::{Limit, first_limit};
