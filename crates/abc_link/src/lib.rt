//! Links between workers: a ring from one end to the other, and an outbox in the sender's pool.
//!
//! `specs/Links.antt` says what contracts see of the two ends.
#![tactic(auto)]

mod crossings;
mod ends;
mod laws;
mod meetings;
mod transfers;

pub use abc_pool::Pool;
pub use abc_value::NoMemory;
pub use ends::{LinkIn, LinkOut, RING_SIZE};
pub use laws::{ends_stay_paired, link_limits};
pub use meetings::{meet, pair};

#[cfg(test)]
mod tests;
