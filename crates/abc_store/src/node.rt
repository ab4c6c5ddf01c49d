ghost use Rattle.std.specs.Prelude.{◌≡◌, ◌<◌, [], length, MatchBool, IfOk, OnOk, OnErr};
ghost use Rattle.std.specs.Bool.{OnFalse};
ghost use Rattle.abc_packet.specs.Outlets.{SameLists, SameLinks};
ghost use Rattle.abc_network.specs.Stores.{blank_store};
ghost use Rattle.abc_history.specs.Histories.{arrivals_in};
ghost use Rattle.abc_history.specs.Nodes.{Drew};
ghost use Rattle.abc_store.specs.Storing.{ArrivesBy, PassesBy, CanPass, HasAll};

use crate::asking::handle;
use crate::keeping::keep;
use crate::parcel::Parcel;
use crate::passing::copies_to_pass;
use crate::rows::Rows;
use crate::stock::Stock;
use abc_history::{History, send_all};
use abc_number::Numbers;
use abc_packet::{Deed, Log, MOST_CLOCK, NoMemory, Outlet, Packet, Stamped};
use std::alloc::Global;
use std::marker::Model;

/// A node that stores messages, and passes them on in order of number.
///
/// Contracts see its rows, and its state, clock and log.
#[derive(Drop)]
pub struct StoreNode<L: Drop, R: Rows<L>> {
    alloc: Global,
    rows: R,
    stock: Stock<L>,
    history: History<L>,
}

impl<L: Drop, R: Rows<L>> Model for StoreNode<L, R> {
    ghost use Rattle.abc_store.specs.Storing.{Storer};

    ghost Value = { Storer R L };

    ghost view = { λ n. record {
      rows = n.rows;
      actor = record { state = n.stock; clock = n.history.clock; log = n.history.log };
    } };
}

impl<L: Drop, R: Rows<L>> StoreNode<L, R> {
    /// The node of these rows at the start. It takes no memory.
    pub fn new(alloc: Global, rows: R) -> StoreNode<L, R>
        ensures rows { result.rows ≡ rows }
        ensures actor { result.actor ≡ record { state = blank_store; clock = 0; log = [] } }
    {
        StoreNode {
            alloc,
            rows,
            stock: Stock::new(alloc),
            history: History::new(alloc),
        }
    }

    /// How many packets arrived so far, strays too.
    pub fn handled(&self) -> u64
        ensures { result ≡ arrivals_in self.now.actor.log }
    {
        self.history.arrivals()
    }

    /// Its logical clock.
    pub fn clock(&self) -> u64
        ensures { result ≡ self.now.actor.clock }
    {
        self.history.clock()
    }

    /// What it did, in order.
    pub fn log(&self) -> &Log<L>
        ensures { result.now.entries ≡ self.now.actor.log }
    {
        self.history.log()
    }

    /// Its log, for good.
    pub fn into_log(self) -> Log<L>
        ensures { result.entries ≡ self.actor.log }
    {
        self.history.into_log()
    }

    /// The number of stored messages.
    pub fn stored(&self) -> usize
        ensures { result ≡ length self.now.actor.state.stored }
    {
        self.stock.stored()
    }

    /// Whether the message that is passed next is stored.
    pub fn can_pass(&self) -> bool
        ensures { let s = self.now.actor.state in MatchBool result (CanPass s) (¬ CanPass s) }
    {
        self.stock.can_pass()
    }

    /// A packet arrives on a link. Where the table has a row for it, that is made; else it is
    /// logged as a stray, and changes nothing else. After NoMemory all is as before, and no number
    /// is drawn.
    pub fn arrive<N: Numbers, O: Outlet<L>>(
        &mut self,
        link: u32,
        stamped: Stamped<L>,
        numbers: &mut N,
        outlet: &mut O,
    ) -> Result<(), NoMemory>
        requires leave { HasAll (R.leaves self.old.rows) (O.has_link outlet.old) }
        requires clock { self.old.actor.clock < MOST_CLOCK }
        requires stamp { stamped.clock < MOST_CLOCK }
        ensures rows { self.new.rows ≡ self.old.rows }
        ensures made { OnOk result (ArrivesBy (R.kind self.old.rows) (R.node self.old.rows)
            link stamped self.old.actor self.new.actor (O.lists outlet.old) (O.lists outlet.new)
            (λ d. Drew N.limit N.drawn N.closed N.stays d numbers.old numbers.new)) }
        ensures err { OnErr result ((self.new ≡ self.old) × (numbers.new ≡ numbers.old)
            × SameLists (O.lists outlet.old) (O.lists outlet.new)) }
        ensures links { SameLinks (O.has_link outlet.old) (O.has_link outlet.new) }
        ensures rest { O.rest outlet.new ≡ O.rest outlet.old }
    {
        let rows = &self.rows;
        let history = &mut self.history;
        history.make_room()?;
        match stamped.packet()? {
            Packet::Message {
                number,
                sender,
                content,
            } => {
                let parcel = Parcel::new(sender, content, link);
                keep(rows, &mut self.stock, history, stamped, number, parcel)
            }
            Packet::Request { agent } => {
                let packet = Packet::Request { agent };
                handle(rows, history, link, stamped, packet, numbers, outlet)
            }
            Packet::Reply { agent, grant } => {
                let packet = Packet::Reply { agent, grant };
                handle(rows, history, link, stamped, packet, numbers, outlet)
            }
        }
    }

    /// Passes the next message on, and answers true; false where it is not stored, and nothing
    /// changes. Nor does anything after NoMemory.
    pub fn pass<O: Outlet<L>>(&mut self, outlet: &mut O) -> Result<bool, NoMemory>
        requires leave { HasAll (R.leaves self.old.rows) (O.has_link outlet.old) }
        requires clock { self.old.actor.clock < MOST_CLOCK }
        ensures rows { self.new.rows ≡ self.old.rows }
        ensures made { IfOk result (λ r. MatchBool r
            (PassesBy (R.kind self.old.rows) (R.node self.old.rows) self.old.actor self.new.actor
            (O.lists outlet.old) (O.lists outlet.new))
            (¬ CanPass self.old.actor.state)) }
        ensures stays { IfOk result (λ r. OnFalse r
            ((self.new ≡ self.old) × SameLists (O.lists outlet.old) (O.lists outlet.new))) }
        ensures err { OnErr result
            ((self.new ≡ self.old) × SameLists (O.lists outlet.old) (O.lists outlet.new)) }
        ensures links { SameLinks (O.has_link outlet.old) (O.has_link outlet.new) }
        ensures rest { O.rest outlet.new ≡ O.rest outlet.old }
    {
        if !self.stock.can_pass() {
            return Ok(false);
        }
        self.history.make_room()?;
        outlet.make_room(self.rows.degree())?;
        let clock = self.history.clock() + 1;
        let ready = copies_to_pass(self.alloc, &self.rows, &self.stock, clock)?;
        let number = self.stock.take();
        send_all(outlet, ready);
        self.history.note(clock, Deed::Passed { number });
        Ok(true)
    }
}

fn crosses_threads<T: Send>() {}

/// A node may go to another thread with its labels.
fn nodes_cross_threads<L: Drop + Send + Sync, R: Rows<L> + Send>() {
    crosses_threads::<StoreNode<L, R>>();
}
