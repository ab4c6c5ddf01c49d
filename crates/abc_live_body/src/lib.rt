//! AbC's components as bodies: what the network moves by the trait `Body` alone is the calculus.
//!
//! A body is a component of a program with the definitions under which it runs. `specs/AbcMeaning.antt`
//! says what it does by the calculus's own rules, and the laws say that a system of such bodies steps
//! and runs just as the calculus does.
#![tactic(auto)]

mod body;
mod laws;

pub use body::AbcBody;
pub use laws::{bodies_run_as_the_calculus, program_bodies_begin_sound};
