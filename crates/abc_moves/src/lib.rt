//! The moves of one component: which outputs it has, which inputs take a message, and what it becomes.
//!
//! A component is held as its environment, its interface and a tree of parallel leaves. Each leaf is a
//! part of the program with bindings beside it, so that a move copies no process. Moving is two acts: what
//! a move makes is made first, and may be refused for want of memory; then it is put in place.
#![tactic(auto)]

mod around;
mod bodies;
mod component;
mod evaluation;
mod hearing;
mod label;
mod leaves;
mod live;
mod made;
mod scope;
mod site;
mod speaking;
mod state;
mod tree;
mod updates;
mod walk;
mod wanted;

pub use label::Label;
pub use live::Live;
pub use made::Move;
