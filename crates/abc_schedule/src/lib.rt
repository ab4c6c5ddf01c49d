//! One schedule out of the logs of a network, and legal records.
//!
//! Logs that fit together, each a path of its actor and each link joined, have a schedule: their merge
//! is a run of the network. The definitions are in `specs/`: `Schedules.antt` says which logs fit
//! together, `Legal.antt` which are a legal record. No proof of the law names a shape; each shape
//! owes only that its actors send on their own links (`Shapes.antt`).
#![tactic(auto)]

mod laws;
mod records;

pub use laws::{
    cluster_has_one_schedule, ring_has_one_schedule, tree_has_one_schedule, wrong_laws_fall,
};
pub use records::{cluster_keeps_records, ring_keeps_records, tree_keeps_records};
