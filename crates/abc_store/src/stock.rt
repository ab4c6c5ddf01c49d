//! The state of a node: the number that it passes next, and the messages that it stores.
ghost use Rattle.std.specs.Prelude.{◌≡◌, ◌+◌, ◌≤◌, length, Some, MatchBool, OnOk, OnErr};
ghost use Rattle.abc_wait.specs.Waits.{item_beside};
ghost use Rattle.abc_network.specs.Stored.{Gains, Loses};
ghost use Rattle.abc_network.specs.Stores.{blank_store};
ghost use Rattle.abc_store.specs.Storing.{CanPass, IsFree};

use crate::parcel::Parcel;
use abc_packet::{MOST_NUMBER, NoMemory};
use abc_wait::WaitList;
use std::alloc::Global;
use std::marker::Model;

/// The state of a node. Contracts see it as the table does.
#[derive(Drop)]
pub(crate) struct Stock<L> {
    next: u32,
    waits: WaitList<Parcel<L>>,
}

impl<L> Model for Stock<L> {
    ghost use Rattle.abc_network.specs.Stores.{Store};
    ghost use Rattle.abc_store.specs.Stocks.{IsStock};

    ghost Value = { Store L };

    ghost view = { λ s. record { next = s.next; stored = s.waits.items } };

    ghost invariant = { λ s. IsStock s.next s.waits };
}

impl<L: Drop> Stock<L> {
    /// The state in which a node starts. It takes no memory.
    pub(crate) fn new(alloc: Global) -> Stock<L>
        ensures { result ≡ blank_store }
    {
        Stock {
            next: 1,
            waits: WaitList::new(alloc, 1),
        }
    }

    /// How many messages are stored.
    pub(crate) fn stored(&self) -> usize
        ensures { result ≡ length self.now.stored }
    {
        self.waits.len()
    }

    /// Whether the message that is passed next is stored.
    pub(crate) fn can_pass(&self) -> bool
        ensures { MatchBool result (CanPass self.now) (¬ CanPass self.now) }
    {
        self.waits.has(self.next)
    }

    /// Whether a message of this number can be stored: it is not passed yet, and not stored.
    pub(crate) fn is_free(&self, number: u32) -> bool
        ensures { MatchBool result (IsFree self.now number) (¬ IsFree self.now number) }
    {
        number >= self.next && !self.waits.has(number)
    }

    /// The number that is passed next, and its message, which stays.
    pub(crate) fn first(&self) -> (u32, &Parcel<L>)
        requires { CanPass self.now }
        ensures number { result.0 ≡ self.now.next }
        ensures most { result.0 ≤ MOST_NUMBER }
        ensures item { item_beside self.now.stored self.now.next ≡ Some result.1.now }
    {
        (self.next, self.waits.get(self.next).unwrap())
    }

    /// Stores a message under its number; after NoMemory the state is as before.
    pub(crate) fn store(&mut self, number: u32, parcel: Parcel<L>) -> Result<(), NoMemory>
        requires most { number ≤ MOST_NUMBER }
        requires free { IsFree self.old number }
        ensures next { self.new.next ≡ self.old.next }
        ensures ok { OnOk result (Gains self.old.stored number parcel self.new.stored) }
        ensures err { OnErr result (self.new ≡ self.old) }
    {
        self.waits.store(number, parcel)
    }

    /// The message that is passed next leaves the store. It answers its number.
    pub(crate) fn take(&mut self) -> u32
        requires { CanPass self.old }
        ensures number { result ≡ self.old.next }
        ensures next { self.new.next ≡ self.old.next + 1 }
        ensures loses { Loses self.old.stored self.old.next self.new.stored }
    {
        let number = self.next;
        self.waits.take(number);
        self.next = number + 1;
        number
    }
}
