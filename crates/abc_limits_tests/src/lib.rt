//! Tests of the limits of a program, on both sides of each.
#![tactic(auto)]

#[cfg(test)]
mod tests;
