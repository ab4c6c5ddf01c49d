//! Tests of the checks on processes that are deeper than a text allows.
#![tactic(auto)]

#[cfg(test)]
mod deep;
