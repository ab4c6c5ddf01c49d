//! What each end does by itself.
ghost use Rattle.std.specs.Prelude.{◌≡◌, ◌+◌, ◌<◌, ◌≤◌, [], ◌∷◌, ◌++◌, length, slice_set};
ghost use Rattle.std.specs.Prelude.{IfNone, IfSome};
ghost use mathlib.Core.List.{IsPrefix};
ghost use Rattle.abc_pool.specs.Queues.{cells_of};
ghost use Rattle.abc_link.specs.Links.{items_entered, known_room, queue_of, outbox, items_sent};
ghost use Rattle.abc_link.specs.Links.{items_received, items_known, SameIn, Moves};

use crate::ends::{LinkIn, LinkOut};
use abc_pool::Pool;

impl<T: Drop> LinkOut<T> {
    /// Appends an item to the outbox. It takes no memory.
    pub fn send(&mut self, pool: &mut Pool<T>, item: T)
        requires exists { queue_of self.old < length pool.old.queues }
        requires room { 0 < pool.old.spare }
        ensures same { self.new ≡ self.old }
        ensures sent { items_sent self.new pool.new ≡ items_sent self.old pool.old ++ item ∷ [] }
        ensures queues { pool.new.queues ≡ slice_set pool.old.queues (queue_of self.old)
            (outbox self.old pool.old ++ item ∷ []) }
        ensures number { length pool.new.queues ≡ length pool.old.queues }
        ensures spare { pool.new.spare + 1 ≡ pool.old.spare }
        ensures cells { cells_of pool.new ≡ cells_of pool.old }
    {
        pool.push(self.queue, item);
    }

    /// Moves items from the front of the outbox into the ring, until the outbox is empty or the
    /// ring takes none. It takes no memory.
    pub fn flush(&mut self, pool: &mut Pool<T>)
        requires exists { queue_of self.old < length pool.old.queues }
        ensures moves { Moves self.old pool.old self.new pool.new }
        ensures reach { known_room self.old + length (items_entered self.old)
            ≤ known_room self.new + length (items_entered self.new) }
        ensures full { 0 < length (outbox self.new pool.new) → known_room self.new ≡ 0 }
    {
        'moving: while !self.producer.is_full() {
            match pool.pop(self.queue) {
                Some(item) => self.producer.push_reserved(item),
                None => return,
            }
        }
    }
}

impl<T: Drop> LinkIn<T> {
    /// The next item of the ring; None only where none is known to be there. It takes no memory.
    pub fn receive(&mut self) -> Option<T>
        ensures same { SameIn self.old self.new }
        ensures received { IfSome result (λ item.
            items_received self.new ≡ items_received self.old ++ item ∷ []) }
        ensures known { IfSome result (λ item.
            IsPrefix (items_known self.old) (item ∷ items_known self.new)) }
        ensures stays { IfNone result (items_received self.new ≡ items_received self.old) }
        ensures empty { IfNone result (items_known self.old ≡ []) }
        ensures still_empty { IfNone result (items_known self.new ≡ []) }
    {
        self.consumer.pop().ok()
    }
}
