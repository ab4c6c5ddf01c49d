//! What logs of a network say: micro-steps of one actor, paths, the merge of all, and choices.
//!
//! The definitions are in `specs/`: `MicroSteps.antt` says what one micro-step takes, logs and
//! sends, `Paths.antt` which logs are paths, `Merges.antt` in which one order the entries of all logs
//! stand, `Choices.antt` which choices logs tell. The tables are those of abc_network.
#![tactic(auto)]

mod laws;

pub use laws::{agents_paths_go_on, cluster_paths_go_on, ring_paths_go_on, tree_paths_go_on};
