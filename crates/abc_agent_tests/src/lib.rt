//! Tests of an agent with a small body and an outlet that has every link: each micro-step, and each
//! made again after memory was refused.
#![tactic(auto)]

#[cfg(test)]
mod tests;
