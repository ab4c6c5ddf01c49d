//! A whole system: one step of all components at once, runs by the rule of places, and runs by choices.
//!
//! A step is made in two acts. First the speaker's and all hearers' moves are made ready, which may be
//! refused for want of memory; then all are put in place. So a step copies no component, and nobody hears
//! after another's move of the same step.
#![tactic(auto)]

mod by_choices;
mod by_turns;
mod cast;
mod hearers;
mod laws;
mod member;
mod multicast;
mod prepare;
mod row;
mod run;
mod speakers;
mod stepping;
mod system;
mod turn;

pub use abc_packet::Choice;
pub use by_choices::{ReplayRefusal, replay};
pub use by_turns::solo;
pub use laws::solo_replays;
pub use row::StepRow;
pub use run::Run;
pub use system::System;
