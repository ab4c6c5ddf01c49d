ghost use Rattle.std.specs.Prelude.{◌≡◌, ◌≤◌, ◌<◌, ◌+◌, List, [], ◌∷◌, ◌++◌, OnOk, OnErr};
ghost use Rattle.abc_packet.specs.Logs.{IsAfterPacket, Rise, last_clock};

use crate::packets::Content;
use crate::stamped::Stamped;
use abc_value::{Grant, NoMemory};
use std::alloc::Global;
use std::marker::Model;

/// What an actor did in one micro-step.
#[derive(Drop)]
pub enum Deed<L> {
    /// An agent asked for a number.
    Asked,
    /// A packet arrived as it was expected.
    Arrived {
        /// The link on which it came.
        link: u32,
        /// The packet.
        stamped: Stamped<L>,
        /// What a node drew for it; None where it drew nothing.
        drew: Option<Grant>,
    },
    /// An agent took the message of a number.
    Took {
        /// The sequence number.
        number: u32,
        /// The place at which it heard, or None.
        place: Option<u32>,
    },
    /// An agent had its turn at its number.
    Turned {
        /// The sequence number.
        number: u32,
        /// The place at which it spoke; None where it said nothing.
        place: Option<u32>,
        /// What it said.
        content: Content<L>,
    },
    /// A node sent a message on.
    Passed {
        /// The sequence number.
        number: u32,
    },
    /// A packet arrived that was not expected, and changed nothing.
    Stray {
        /// The link on which it came.
        link: u32,
        /// The packet.
        stamped: Stamped<L>,
    },
}

/// One micro-step of an actor.
#[derive(Drop)]
pub struct Entry<L> {
    /// The actor's logical clock after it.
    pub clock: u64,
    /// What was done.
    pub deed: Deed<L>,
}

/// A run within the limits has some 17 million entries, of at most 64 bytes each.
const _: () = prove!(size_of::<Entry<u8>>() <= 64);

/// What an actor did, in order. The clocks of the entries rise from 1 on, and where an entry took a
/// packet from a link, its clock is above the packet's.
#[derive(Drop)]
pub struct Log<L> {
    entries: Vec<Entry<L>>,
}

impl<L> Model for Log<L> {
    ghost use Rattle.std.specs.Prelude.{◌-◌, vec_len, vec_capacity};
    ghost use Rattle.abc_packet.specs.Logs.{LogState, Rise};

    ghost Value = { LogState L };

    ghost view = { λ l. record {
      entries = l.entries.items;
      room = vec_capacity l.entries - vec_len l.entries;
    } };

    ghost invariant = { λ l. Rise 0 l.entries.items };
}

impl<L> Log<L> {
    /// The empty log. It takes no memory.
    pub fn new(alloc: Global) -> Log<L>
        ensures entries { result.entries ≡ [] }
        ensures room { result.room ≡ 0 }
    {
        Log {
            entries: Vec::new(alloc),
        }
    }

    /// How many entries can be appended without memory.
    pub fn room(&self) -> usize
        ensures { result ≡ self.now.room }
    {
        self.entries.capacity() - self.entries.len()
    }

    /// Makes room for at least `count` entries; after NoMemory the log is as before.
    pub fn make_room(&mut self, count: usize) -> Result<(), NoMemory>
        ensures entries { self.new.entries ≡ self.old.entries }
        ensures ok { OnOk result (count ≤ self.new.room) }
        ensures err { OnErr result (self.new ≡ self.old) }
    {
        self.entries.reserve(count)?;
        Ok(())
    }

    /// Appends an entry. It takes no memory.
    #[tactic(auto, using(crate::proofs::Rising::rise_after_push))]
    pub fn push(&mut self, entry: Entry<L>)
        requires room { 0 < self.old.room }
        requires later { last_clock 0 self.old.entries < entry.clock }
        requires above { IsAfterPacket entry.clock entry.deed }
        ensures entries { self.new.entries ≡ self.old.entries ++ entry ∷ [] }
        ensures room { self.old.room ≡ self.new.room + 1 }
    {
        self.entries.push_reserved(entry);
    }

    /// The entries in order.
    pub fn entries(&self) -> &[Entry<L>]
        ensures value { result.now ≡ self.now.entries }
        ensures rise { Rise 0 result.now }
    {
        self.entries.as_slice()
    }
}
