ghost use Rattle.std.specs.Prelude.{◌≡◌, ◌+◌, ◌<◌, ◌≤◌, [], ◌∷◌, ◌++◌, length, replicate, max, slice_get, slice_set, IsOk, IfOk, IfNone, IfSome, OnOk, OnErr};
ghost use Rattle.std.specs.Option.{option_copied};
ghost use Rattle.abc_pool.specs.Queues.{items_in, cells_of, Pops};

use crate::cells::{Cell, Chain, add_cell, move_first};
use abc_value::NoMemory;
use std::alloc::Global;
use std::marker::Model;

/// A number of queues, which share one table of cells. Contracts see the items of each queue, and how
/// many more can be pushed without memory.
///
/// A cell stands in one queue, or among the free cells.
#[derive(Debug, Drop)]
pub struct Pool<T> {
    cells: Vec<Cell<T>>,
    free: Chain,
    queues: Vec<Chain>,
}

impl<T> Model for Pool<T> {
    ghost use Rattle.std.specs.Prelude.{◌∷◌, map};
    ghost use Rattle.abc_pool.specs.Queues.{Queues, queues_code};

    ghost Value = { Queues T };

    ghost coded = { queues_code T.code };

    ghost use Rattle.abc_pool.specs.Tables.{items_of, IsPool};

    ghost view = { λ p. record {
      queues = map (items_of p.cells.items) p.queues.items;
      spare = p.free.count;
    } };

    ghost invariant = { λ p. IsPool p.cells.items p.free p.queues.items };
}

impl<T> Pool<T> {
    /// So many empty queues.
    pub fn with_queues(alloc: Global, queues: u32) -> Result<Pool<T>, NoMemory>
        ensures queues { IfOk result (λ p. p.queues ≡ replicate queues []) }
        ensures spare { IfOk result (λ p. p.spare ≡ 0) }
    {
        let count = queues as usize;
        let mut chains = Vec::with_capacity(alloc, count)?;
        'adding: for added in 0..count {
            chains.push_reserved(Chain::EMPTY);
        }
        let cells = Vec::new(alloc);
        Ok(Pool {
            cells,
            free: Chain::EMPTY,
            queues: chains,
        })
    }

    /// Makes room for `room` further items, where there is less; after NoMemory the pool is as before.
    pub fn reserve(&mut self, room: usize) -> Result<(), NoMemory>
        ensures queues { self.new.queues ≡ self.old.queues }
        ensures spare { OnOk result (self.new.spare ≡ max self.old.spare room) }
        ensures err { OnErr result (self.new ≡ self.old) }
        ensures enough { room ≤ self.old.spare → IsOk result }
        ensures cells { cells_of self.old ≤ cells_of self.new }
    {
        let missing = room.saturating_sub(self.free.count);
        self.cells.reserve_exact(missing)?;
        'adding: for added in 0..missing {
            add_cell(&mut self.cells, &mut self.free);
        }
        Ok(())
    }

    /// The first item of a queue, which stays; None where the queue is empty.
    pub fn front(&self, queue: u32) -> Option<&T>
        requires exists { queue < length self.now.queues }
        ensures { option_copied result ≡ slice_get (items_in self.now queue) 0 }
    {
        let chain = &self.queues[queue as usize];
        if chain.count == 0 {
            return None;
        }
        self.cells[chain.first].item.as_ref()
    }

    /// Takes the first item of a queue; None where the queue is empty.
    pub fn pop(&mut self, queue: u32) -> Option<T>
        requires exists { queue < length self.old.queues }
        ensures first { IfSome result (Pops self.old self.new queue) }
        ensures number { length self.new.queues ≡ length self.old.queues }
        ensures empty { IfNone result (items_in self.old queue ≡ []) }
        ensures same { IfNone result (self.new ≡ self.old) }
        ensures cells { cells_of self.new ≡ cells_of self.old }
    {
        let queue = queue as usize;
        if self.queues[queue].count == 0 {
            return None;
        }
        move_first(
            &mut self.cells,
            &mut self.queues[queue],
            &mut self.free,
            None,
        )
    }

    /// The number of items of a queue.
    pub fn len(&self, queue: u32) -> usize
        requires exists { queue < length self.now.queues }
        ensures items { result ≡ length (items_in self.now queue) }
        ensures within { result + self.now.spare ≤ cells_of self.now }
    {
        self.queues[queue as usize].count
    }

    /// How many more items can be pushed without memory.
    pub fn spare(&self) -> usize
        ensures { result ≡ self.now.spare }
    {
        self.free.count
    }

    /// The size of the table, which is `spare` and the lengths of all queues together. It never falls.
    pub fn cells(&self) -> usize
        ensures { result ≡ cells_of self.now }
    {
        self.cells.len()
    }
}

impl<T: Drop> Pool<T> {
    /// Appends an item to a queue. It takes no memory.
    pub fn push(&mut self, queue: u32, item: T)
        requires exists { queue < length self.old.queues }
        requires room { 0 < self.old.spare }
        ensures queues { self.new.queues
            ≡ slice_set self.old.queues queue (items_in self.old queue ++ item ∷ []) }
        ensures number { length self.new.queues ≡ length self.old.queues }
        ensures spare { self.new.spare + 1 ≡ self.old.spare }
        ensures cells { cells_of self.new ≡ cells_of self.old }
    {
        let queue = &mut self.queues[queue as usize];
        let _none = move_first(&mut self.cells, &mut self.free, queue, Some(item));
    }
}

fn crosses_threads<T: Send>() {}

/// A pool may go to another thread with its items.
fn pools_cross_threads<T: Send>() {
    crosses_threads::<Pool<T>>();
}

fn is_shared<T: Sync>() {}

/// A pool may be looked at by several threads.
fn pools_are_shared<T: Sync>() {
    is_shared::<Pool<T>>();
}
