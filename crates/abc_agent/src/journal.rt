//! The clock and the log of an actor.
ghost use Rattle.std.specs.Prelude.{◌≡◌, ◌<◌, ◌≤◌, [], OnOk};
ghost use Rattle.abc_network.specs.Networks.{taken_clock};
ghost use Rattle.abc_agent.specs.Journals.{arrival_of, SameEntries, Enters};

use abc_packet::{Deed, Entry, Log, MOST_CLOCK, NoMemory, Stamped};
use std::alloc::Global;
use std::marker::Model;

/// What an actor logs, with the logical clock that it has.
#[derive(Drop)]
pub(crate) struct Journal<L> {
    clock: u64,
    log: Log<L>,
}

impl<L> Model for Journal<L> {
    ghost use Rattle.std.specs.Prelude.{◌≤◌};
    ghost use Rattle.abc_packet.specs.Logs.{last_clock};
    ghost use Rattle.abc_agent.specs.Journals.{JournalState};

    ghost Value = { JournalState L };

    ghost view = { λ j. record { clock = j.clock; entries = j.log.entries; room = j.log.room } };

    ghost invariant = { λ j. last_clock 0 j.log.entries ≤ j.clock };
}

/// The clock of the packet that a deed took from a link; 0 where it took none.
fn clock_taken<L>(deed: &Deed<L>) -> u64
    ensures { result ≡ taken_clock deed.now }
{
    match deed {
        Deed::Arrived { stamped, .. } | Deed::Stray { stamped, .. } => stamped.clock(),
        Deed::Asked | Deed::Took { .. } | Deed::Turned { .. } | Deed::Passed { .. } => 0,
    }
}

/// The deed of an arrival, which is a stray where the table has no row for it.
pub(crate) fn arrival<L>(fits: bool, link: u32, stamped: Stamped<L>) -> Deed<L>
    ensures value { result ≡ arrival_of fits link stamped }
    ensures clock { taken_clock result ≡ stamped.clock }
{
    if fits {
        let drew = None;
        Deed::Arrived {
            link,
            stamped,
            drew,
        }
    } else {
        Deed::Stray { link, stamped }
    }
}

impl<L> Journal<L> {
    /// The empty log, at clock 0. It takes no memory.
    pub(crate) fn new(alloc: Global) -> Journal<L>
        ensures clock { result.clock ≡ 0 }
        ensures entries { result.entries ≡ [] }
    {
        Journal {
            clock: 0,
            log: Log::new(alloc),
        }
    }

    /// The clock.
    pub(crate) fn clock(&self) -> u64
        ensures { result ≡ self.now.clock }
    {
        self.clock
    }

    /// The log.
    pub(crate) fn log(&self) -> &Log<L>
        ensures { result.now.entries ≡ self.now.entries }
    {
        &self.log
    }

    /// The log, for good.
    pub(crate) fn into_log(self) -> Log<L>
        ensures { result.entries ≡ self.entries }
    {
        self.log
    }

    /// Makes room for one entry.
    pub(crate) fn make_room(&mut self) -> Result<(), NoMemory>
        ensures same { SameEntries self.old self.new }
        ensures ok { OnOk result (0 < self.new.room) }
    {
        self.log.make_room(1)
    }

    /// Logs a deed, and answers the clock after it. It takes no memory.
    #[tactic(auto, using(crate::proofs::Clocks::last_clock_of_more, crate::proofs::Clocks::after_packet))]
    pub(crate) fn enter(&mut self, deed: Deed<L>) -> u64
        requires room { 0 < self.old.room }
        requires clock { self.old.clock < MOST_CLOCK }
        requires stamp { taken_clock deed < MOST_CLOCK }
        ensures clock { result ≡ self.new.clock }
        ensures most { result ≤ MOST_CLOCK }
        ensures enters { Enters self.old deed self.new }
    {
        self.clock = self.clock.max(clock_taken(&deed)) + 1;
        self.log.push(Entry {
            clock: self.clock,
            deed,
        });
        self.clock
    }
}
