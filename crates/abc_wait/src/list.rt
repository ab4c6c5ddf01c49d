ghost use Rattle.std.specs.Prelude.{◌≡◌, ◌+◌, ◌<◌, ◌≤◌, ◌↔◌, ℕ, [], IsTrue, IsSome, IfNone, OnSome, OnOk, OnErr};
ghost use Rattle.std.specs.Option.{option_copied};
ghost use Rattle.std.specs.Bool.{OnFalse};
ghost use Rattle.abc_wait.specs.Waits.{item_at, count_of, IsInOrder};
ghost use Rattle.abc_wait.specs.Changes.{Stores, Takes};

use crate::window::{item_in, take_first, widen};
use abc_value::NoMemory;
use std::alloc::Global;
use std::collections::VecDeque;
use std::marker::Model;

/// Items that wait under their numbers. Contracts see the item under each number, and the first number
/// that is not past.
///
/// A list is a window of places from the first number that is not past to the greatest that was stored,
/// so it takes memory for each number in between.
#[derive(Debug, Drop)]
pub struct WaitList<T> {
    first: u64,
    places: VecDeque<Option<T>>,
    stored: usize,
}

impl<T> Model for WaitList<T> {
    ghost use Rattle.abc_wait.specs.Waits.{Waits, waits_code};
    ghost use Rattle.abc_wait.specs.Windows.{items_from, IsWindow};

    ghost Value = { Waits T };

    ghost coded = { waits_code T.code };

    ghost view = { λ w. record { first = w.first; items = items_from w.first w.places.items } };

    ghost invariant = { λ w. IsWindow w.first w.places.items w.stored };
}

impl<T> WaitList<T> {
    /// A wait list with nothing stored, in which the numbers below `first` are past. It takes no memory.
    pub fn new(alloc: Global, first: u32) -> WaitList<T>
        ensures first { result.first ≡ first }
        ensures empty { result.items ≡ [] }
    {
        WaitList {
            first: u64::from(first),
            places: VecDeque::new(alloc),
            stored: 0,
        }
    }

    /// The item stored under a number, which stays; None where there is none.
    pub fn get(&self, number: u32) -> Option<&T>
        ensures item { option_copied result ≡ item_at self.now number }
        ensures in_order { IsInOrder self.now }
    {
        if u64::from(number) < self.first {
            return None;
        }
        item_in(&self.places, self.first, number)
    }

    /// Whether an item is stored under a number.
    pub fn has(&self, number: u32) -> bool
        ensures stored { IsTrue result ↔ IsSome (item_at self.now number) }
        ensures free { OnFalse result (item_at self.now number ≡ None) }
        ensures in_order { IsInOrder self.now }
    {
        self.get(number).is_some()
    }

    /// The number of items stored.
    pub fn len(&self) -> usize
        ensures count { result ≡ count_of self.now }
        ensures in_order { IsInOrder self.now }
    {
        self.stored
    }

    /// Takes the item of the lowest number that one is stored under; then all numbers up to this one are
    /// past. None, and nothing changes, where no item is stored under it.
    pub fn take(&mut self, number: u32) -> Option<T>
        requires lowest { (n : ℕ) → n < number → item_at self.old n ≡ None }
        ensures item { result ≡ item_at self.old number }
        ensures taken { OnSome result (Takes self.old self.new number) }
        ensures none { IfNone result (self.new ≡ self.old) }
        ensures in_order { IsInOrder self.new }
    {
        if !self.has(number) {
            return None;
        }
        self.stored -= 1;
        take_first(&mut self.first, &mut self.places)
    }
}

impl<T: Drop> WaitList<T> {
    /// Stores an item under a number that has none and is not past; after NoMemory the list is as before.
    pub fn store(&mut self, number: u32, item: T) -> Result<(), NoMemory>
        requires free { item_at self.old number ≡ None }
        requires ahead { self.old.first ≤ number }
        ensures ok { OnOk result (Stores self.old self.new number item) }
        ensures err { OnErr result (self.new ≡ self.old) }
        ensures in_order { IsInOrder self.new }
    {
        let place = (u64::from(number) - self.first) as usize;
        widen(&mut self.places, place + 1)?;
        self.places[place] = Some(item);
        self.stored += 1;
        Ok(())
    }
}

fn crosses_threads<T: Send>() {}

/// A wait list may go to another thread with its items.
fn wait_lists_cross_threads<T: Send>() {
    crosses_threads::<WaitList<T>>();
}
