//! What the components of a checked program can become: laws that those who run programs rest on.
//!
//! A component that runs is made of parts of its program's processes, side by side, with values in the
//! place of their variables. The checks bound these parts, so they bound what every component that is
//! reached can do. The definitions are in `specs/`; there is no code here.
#![tactic(auto)]

mod laws;
mod limits;

pub use laws::{
    calls_end, counts_are_small, least_measures_exist, move_limits_are_these, moves_keep_soundness,
    parts_are_short, programs_begin_sound, sound_components_are_narrow,
};
pub use limits::{MOST_ACTIONS, MOST_MOVES};
