ghost use Rattle.std.specs.Prelude.{◌≡◌, ◌<◌, false, Ok, OnOk, OnErr};
ghost use Rattle.abc_packet.specs.Outlets.{SameLinks, SameLists};
ghost use Rattle.abc_shape.specs.declared.shape.Shape.TheVariants.{Cluster};
ghost use Rattle.abc_history.specs.Histories.{arrivals_in};
ghost use Rattle.abc_history.specs.Nodes.{Arrives, Drew};
ghost use Rattle.abc_cluster.specs.Stations.{HasLinksOf, PassesNothing, table_of, starting_node};

use crate::arrival::arrive_at;
use crate::station::Station;
use abc_history::History;
use abc_number::Numbers;
use abc_packet::{Log, MOST_CLOCK, NoMemory, Outlet, Stamped};
use abc_shape::Plan;
use std::alloc::Global;
use std::marker::Model;

/// The node of a cluster.
///
/// Contracts see its plan, its number there, and its clock and log.
#[derive(Drop)]
pub struct ClusterNode<'p, L> {
    alloc: Global,
    station: Station<'p>,
    history: History<L>,
}

impl<'p, L> Model for ClusterNode<'p, L> {
    ghost use Rattle.abc_history.specs.Nodes.{SeenNode, acting};

    ghost Value = { SeenNode (Unit {0}) L };

    ghost view = { λ n. record {
      number = n.station.number;
      plan = n.station.plan;
      actor = acting tt n.history;
    } };
}

impl<'p, L> ClusterNode<'p, L> {
    /// The node of this number in a cluster of this plan, at the start. It takes no memory.
    pub fn new(alloc: Global, node: u32, plan: &'p Plan) -> ClusterNode<'p, L>
        requires shape { plan.now.shape ≡ Cluster }
        requires node { node < plan.now.nodes }
        ensures number { result.number ≡ node }
        ensures plan { result.plan ≡ plan.now }
        ensures actor { result.actor ≡ starting_node }
    {
        ClusterNode {
            alloc,
            station: Station::new(plan, node),
            history: History::new(alloc),
        }
    }

    /// Its logical clock.
    pub fn clock(&self) -> u64
        ensures { result ≡ self.now.actor.clock }
    {
        self.history.clock()
    }

    /// How many packets arrived so far, strays too.
    pub fn handled(&self) -> u64
        ensures { result ≡ arrivals_in self.now.actor.log }
    {
        self.history.arrivals()
    }

    /// What it did, in order.
    pub fn log(&self) -> &Log<L>
        ensures { result.now.entries ≡ self.now.actor.log }
    {
        self.history.log()
    }

    /// Its log, for good.
    pub fn into_log(self) -> Log<L>
        ensures { result.entries ≡ self.entry.actor.log }
    {
        self.history.into_log()
    }

    /// The number of messages that wait: in a cluster none.
    pub fn stored(&self) -> usize
        ensures { result ≡ 0 }
    {
        0
    }

    /// Whether it can pass a message on that waits: in a cluster never.
    pub fn can_pass(&self) -> bool
        ensures never { result ≡ false }
        ensures table { PassesNothing {L = L} (table_of self.now.plan self.now.number) }
    {
        false
    }

    /// Passes on a message that waits, and answers true. In a cluster none waits: it answers false,
    /// and nothing changes.
    pub fn pass<O: Outlet<L>>(&mut self, outlet: &mut O) -> Result<bool, NoMemory>
        ensures none { result ≡ Ok false }
        ensures node { self.new ≡ self.old }
        ensures outlet { outlet.new ≡ outlet.old }
    {
        Ok(false)
    }
}

impl<'p, L: Drop> ClusterNode<'p, L> {
    /// A packet arrives on a link. Where the table has a row for it, that is made; else it is
    /// logged as a stray, and changes nothing else. After NoMemory all is as before, and no number
    /// is drawn.
    pub fn arrive<N: Numbers, O: Outlet<L>>(
        &mut self,
        link: u32,
        stamped: Stamped<L>,
        numbers: &mut N,
        outlet: &mut O,
    ) -> Result<(), NoMemory>
        requires from { HasLinksOf self.old.plan self.old.number (O.has_link outlet.old) }
        requires clock { self.old.actor.clock < MOST_CLOCK }
        requires packet { stamped.clock < MOST_CLOCK }
        ensures number { self.new.number ≡ self.old.number }
        ensures plan { self.new.plan ≡ self.old.plan }
        ensures arrives { OnOk result (Arrives (table_of self.old.plan self.old.number) link stamped
            self.old.actor self.new.actor (O.lists outlet.old) (O.lists outlet.new)
            (λ drew. Drew N.limit N.drawn N.closed N.stays drew numbers.old numbers.new)) }
        ensures node_as_before { OnErr result (self.new ≡ self.old) }
        ensures none_drawn { OnErr result (numbers.new ≡ numbers.old) }
        ensures none_sent { OnErr result (SameLists (O.lists outlet.old) (O.lists outlet.new)) }
        ensures links { SameLinks (O.has_link outlet.old) (O.has_link outlet.new) }
        ensures rest { O.rest outlet.new ≡ O.rest outlet.old }
    {
        arrive_at(
            self.alloc,
            &self.station,
            &mut self.history,
            link,
            stamped,
            numbers,
            outlet,
        )
    }
}

fn crosses_threads<T: Send>() {}

fn may_be_shared<T: Sync>() {}

/// A node may go to another thread with its labels, and be looked at from several.
fn nodes_cross_threads<'p, L: Send + Sync>() {
    crosses_threads::<ClusterNode<'p, L>>();
    may_be_shared::<ClusterNode<'p, L>>();
}
