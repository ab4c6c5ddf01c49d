//! The text of a record: that of a cluster of one agent and one node, in which the agent speaks once.
#![tactic(auto)]

#[cfg(test)]
mod one_speaker;
