//! Pools: many queues in one table of cells.
//!
//! `specs/Queues.antt` says what contracts see of a pool, `specs/Tables.antt` what its table keeps.
#![tactic(auto)]

mod cells;
mod pool;

pub use abc_value::NoMemory;
pub use pool::Pool;

#[cfg(test)]
mod tests;
