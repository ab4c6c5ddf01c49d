//! Both ends of a link in one hand.
ghost use Rattle.std.specs.Prelude.{◌≡◌, ◌<◌, ◌≤◌, [], ◌++◌, length, IfOk};
ghost use Rattle.abc_link.specs.declared.ends.TheConstants.{RING_SIZE};
ghost use Rattle.abc_link.specs.Links.{items_entered, known_room, queue_of, outbox, items_sent};
ghost use Rattle.abc_link.specs.Links.{items_received, items_known, under_way};
ghost use Rattle.abc_link.specs.Links.{ArePaired, SameIn, Moves};

use crate::ends::{LinkIn, LinkOut, RING_SIZE};
use abc_pool::Pool;
use abc_value::NoMemory;
use rtrb::RingBuffer;
use std::alloc::Global;

/// A link whose ring is empty, and whose outbox is this queue.
pub fn pair<T: Drop>(alloc: Global, queue: u32) -> Result<(LinkOut<T>, LinkIn<T>), NoMemory>
    ensures paired { IfOk result (λ ends. ArePaired ends.0 ends.1) }
    ensures queue { IfOk result (λ ends. queue_of ends.0 ≡ queue) }
    ensures entered { IfOk result (λ ends. items_entered ends.0 ≡ []) }
    ensures room { IfOk result (λ ends. known_room ends.0 ≡ RING_SIZE) }
    ensures received { IfOk result (λ ends. items_received ends.1 ≡ []) }
    ensures known { IfOk result (λ ends. items_known ends.1 ≡ []) }
{
    let (producer, consumer) = RingBuffer::new(alloc, RING_SIZE)?;
    Ok((LinkOut { producer, queue }, LinkIn { consumer }))
}

/// Flushes, and answers how many items are under way. The receiver knows all that is in the ring
/// then, and the outbox has items only where the ring is full.
pub fn meet<T: Drop>(out: &mut LinkOut<T>, pool: &mut Pool<T>, into: &mut LinkIn<T>) -> u128
    requires paired { ArePaired out.old into.old }
    requires exists { queue_of out.old < length pool.old.queues }
    ensures paired { ArePaired out.new into.new }
    ensures moves { Moves out.old pool.old out.new pool.new }
    ensures same { SameIn into.old into.new }
    ensures received { items_received into.new ≡ items_received into.old }
    ensures all { items_sent out.new pool.new
        ≡ items_received into.new ++ items_known into.new ++ outbox out.new pool.new }
    ensures stays { under_way out.new pool.new into.new ≡ under_way out.old pool.old into.old }
    ensures left { under_way out.new pool.new into.new
        ≡ items_known into.new ++ outbox out.new pool.new }
    ensures full { 0 < length (outbox out.new pool.new)
        → RING_SIZE ≤ length (items_known into.new) }
    ensures next { 0 < result → 0 < length (items_known into.new) }
    ensures count { result ≡ length (under_way out.new pool.new into.new) }
{
    out.producer.slots_beside(&mut into.consumer);
    out.flush(pool);
    let known = into.consumer.slots_beside(&mut out.producer);
    known as u128 + pool.len(out.queue) as u128
}
