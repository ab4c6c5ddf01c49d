//! Tests of live components alone, of chains that no text has, and of steps that memory was refused for.
#![tactic(auto)]

#[cfg(test)]
mod chosen;
#[cfg(test)]
mod deep;
#[cfg(test)]
mod lives;
#[cfg(test)]
mod memory;
