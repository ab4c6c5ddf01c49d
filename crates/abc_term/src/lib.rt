//! Processes, components and programs of AbC, the calculus of attribute-based communication.
//!
//! The types here are what a text is read into. What they mean, the rules of speaking and hearing and
//! the steps of a system, stands in `specs/` as definitions, and docs/CALCULUS.md goes through it.
#![tactic(auto)]

mod examples;
mod laws;
mod terms;

pub use examples::{what_is_no_step, worked_calls, worked_steps};
pub use laws::{
    calls_are_their_bodies, choices_determine_steps, each_component_moves, each_place_has_one_move,
    environments_are_maps, every_message_is_heard, no_output_is_refused, only_the_meant_receive,
    substitution_is_binding, who_is_listed_hears,
};
pub use terms::{After, Component, Definition, Process, Program, Update};
