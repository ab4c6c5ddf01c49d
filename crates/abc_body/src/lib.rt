//! Bodies: machines that multicast, of which AbC's components are one kind.
//!
//! A body says labels and hears those of others. The network moves bodies by this trait alone, so
//! what is proved of it holds for every body. `specs/Multicasts.antt` says what a system of bodies
//! does all at once.
#![tactic(auto)]

mod body;
mod laws;
mod tally;

pub use abc_packet::{Choice, NoMemory, Owner};
pub use body::Body;
pub use laws::{
    resting_is_staying, runs_follow_one_another, runs_stay_sound, speakings_are_steps, worked_runs,
};
pub use tally::{FULL, Tally};

#[cfg(test)]
mod tests;
