//! Laws of the grammar and its limits that the crates above cite, apart from their definitions: what
//! an accepted text gives, and what the marks that the limits speak of stand for.
#![tactic(auto)]

mod laws;

pub use laws::{
    beginnings_are_walked, extra_parts_are_crowded, limits_hold, limits_meet, marks_stand,
    names_are_numbered, places_are_named, short_tuples_pass_no_limit,
};
