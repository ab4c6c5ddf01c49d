//! The two ends of a link.
ghost use Rattle.std.specs.Prelude.{◌≡◌};
ghost use Rattle.rtrb.specs.Ring.{producer_capacity};
ghost use Rattle.abc_link.specs.declared.ends.TheConstants.{RING_SIZE};

use rtrb::{Consumer, Producer};

/// How many items a ring holds.
pub const RING_SIZE: usize = 8;

/// The end that sends. What has no room in the ring waits in the outbox, a queue of the sender's
/// pool.
#[derive(Drop)]
pub struct LinkOut<T> {
    pub(crate) producer: Producer<T>,
    pub(crate) queue: u32,
    ghost ring: { producer_capacity producer ≡ RING_SIZE },
}

/// The end that receives.
#[derive(Drop)]
pub struct LinkIn<T> {
    pub(crate) consumer: Consumer<T>,
}
