ghost use Rattle.std.specs.Prelude.{◌≡◌, ◌+◌, ◌≤◌, ◌<◌, max, [], length, OnOk, OnErr};
ghost use Rattle.abc_network.specs.Networks.{taken_clock};
ghost use Rattle.abc_logs.specs.MicroSteps.{taken_by};
ghost use Rattle.abc_history.specs.Histories.{arrivals_in, Noted};

use abc_packet::{Deed, Entry, Log, MOST_CLOCK, NoMemory, Stamped};
use std::alloc::Global;
use std::marker::Model;

/// What every actor keeps beside its state: its logical clock and its log. It also counts the
/// packets that arrived.
#[derive(Drop)]
pub struct History<L> {
    clock: u64,
    arrived: u64,
    log: Log<L>,
}

impl<L> Model for History<L> {
    ghost use Rattle.abc_history.specs.Histories.{Past, IsHistory};

    ghost Value = { Past L };

    ghost view = { λ h. record { clock = h.clock; log = h.log.entries; room = h.log.room } };

    ghost invariant = { λ h. IsHistory h.clock h.arrived h.log.entries };
}

/// How many packets a deed took from a link.
fn arrivals_of<L>(deed: &Deed<L>) -> u64
    ensures count { result ≡ length (taken_by deed.now) }
    ensures few { result ≤ 1 }
{
    match deed {
        Deed::Arrived { .. } | Deed::Stray { .. } => 1,
        Deed::Asked | Deed::Took { .. } | Deed::Turned { .. } | Deed::Passed { .. } => 0,
    }
}

impl<L> History<L> {
    /// The history of an actor that has done nothing. It takes no memory.
    pub fn new(alloc: Global) -> History<L>
        ensures clock { result.clock ≡ 0 }
        ensures log { result.log ≡ [] }
        ensures room { result.room ≡ 0 }
    {
        History {
            clock: 0,
            arrived: 0,
            log: Log::new(alloc),
        }
    }

    /// The logical clock: that of the last entry, and 0 before the first.
    pub fn clock(&self) -> u64
        ensures { result ≡ self.now.clock }
    {
        self.clock
    }

    /// How many packets arrived so far, strays too.
    pub fn arrivals(&self) -> u64
        ensures { result ≡ arrivals_in self.now.log }
    {
        self.arrived
    }

    /// The log.
    pub fn log(&self) -> &Log<L>
        ensures { result.now.entries ≡ self.now.log }
    {
        &self.log
    }

    /// The log alone.
    pub fn into_log(self) -> Log<L>
        ensures { result.entries ≡ self.log }
    {
        let History {
            clock: _,
            arrived: _,
            log,
        } = self;
        log
    }

    /// Makes room for one entry; after NoMemory the history is as before.
    pub fn make_room(&mut self) -> Result<(), NoMemory>
        ensures clock { self.new.clock ≡ self.old.clock }
        ensures log { self.new.log ≡ self.old.log }
        ensures ok { OnOk result (0 < self.new.room) }
        ensures err { OnErr result (self.new ≡ self.old) }
    {
        self.log.make_room(1)
    }

    /// The clock of the entry that logs the arrival of this packet: one above the greater of both
    /// clocks.
    pub fn clock_after(&self, stamped: &Stamped<L>) -> u64
        requires clock { self.now.clock < MOST_CLOCK }
        requires packet { stamped.now.clock < MOST_CLOCK }
        ensures next { result ≡ max self.now.clock stamped.now.clock + 1 }
        ensures most { result ≤ MOST_CLOCK }
    {
        self.clock.max(stamped.clock()) + 1
    }

    /// Logs a deed. Its clock is one above the greater of the actor's clock and that of the packet
    /// which the deed took. It takes no memory.
    #[tactic(auto, using(crate::proofs::Noting::noting))]
    pub fn note(&mut self, clock: u64, deed: Deed<L>)
        requires room { 0 < self.old.room }
        requires next { clock ≡ max self.old.clock (taken_clock deed) + 1 }
        ensures noted { Noted self.old deed self.new }
        ensures room { self.old.room ≡ self.new.room + 1 }
    {
        self.arrived += arrivals_of(&deed);
        self.log.push(Entry { clock, deed });
        self.clock = clock;
    }
}

fn crosses_threads<T: Send>() {}

/// A history may go to another thread with its labels.
fn histories_cross_threads<L: Send + Sync>() {
    crosses_threads::<History<L>>();
}
