//! Laws of plans: links and their numbers, routes, the depth of trees, and the paths of the copies of a message.
//!
//! The definitions are in `specs/`; there is no code here.
#![tactic(auto)]

mod laws;

pub use laws::{
    copies_are_counted, copies_in_clusters, copies_in_rings, copies_in_trees,
    links_are_their_numbers, routes_arrive, trees_are_low,
};
