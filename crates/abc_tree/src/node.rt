ghost use Rattle.std.specs.Prelude.{◌≡◌, ◌<◌, [], length, MatchBool, IfOk, OnOk, OnErr};
ghost use Rattle.std.specs.Bool.{OnFalse};
ghost use Rattle.abc_shape.specs.declared.shape.Shape.TheVariants.{Tree};
ghost use Rattle.abc_shape.specs.Plans.{actor_of};
ghost use Rattle.abc_packet.specs.Outlets.{SameLists, SameLinks};
ghost use Rattle.abc_network.specs.Stores.{blank_store};
ghost use Rattle.abc_network.specs.Trees.{tree_kind};
ghost use Rattle.abc_history.specs.Histories.{arrivals_in};
ghost use Rattle.abc_history.specs.Nodes.{Drew};
ghost use Rattle.abc_history.specs.Outs.{HasLinksFrom};
ghost use Rattle.abc_store.specs.Storing.{ArrivesBy, PassesBy, CanPass};
ghost use Rattle.abc_tree.specs.Nodes.{SameNode};

use crate::rows::TreeRows;
use abc_number::Numbers;
use abc_packet::{Log, MOST_CLOCK, NoMemory, Outlet, Stamped};
use abc_shape::Plan;
use abc_store::StoreNode;
use std::alloc::Global;
use std::marker::Model;

/// A node of a tree.
///
/// Contracts see its number, the plan of its network, and its state, clock and log.
#[derive(Drop)]
pub struct TreeNode<'p, L: Drop> {
    node: StoreNode<L, TreeRows<'p>>,
}

impl<'p, L: Drop> Model for TreeNode<'p, L> {
    ghost use Rattle.abc_network.specs.Stores.{Store};
    ghost use Rattle.abc_history.specs.Nodes.{SeenNode};

    ghost Value = { SeenNode (Store L) L };

    ghost view = { λ n. record {
      number = n.node.rows.node;
      plan = n.node.rows.plan;
      actor = n.node.actor;
    } };
}

impl<'p, L: Drop> TreeNode<'p, L> {
    /// The node of this number in a tree of this plan, at the start. It takes no memory.
    pub fn new(alloc: Global, node: u32, plan: &'p Plan) -> TreeNode<'p, L>
        requires tree { plan.now.shape ≡ Tree }
        requires node { node < plan.now.nodes }
        ensures number { result.number ≡ node }
        ensures plan { result.plan ≡ plan.now }
        ensures actor { result.actor ≡ record { state = blank_store; clock = 0; log = [] } }
    {
        TreeNode {
            node: StoreNode::new(alloc, TreeRows::new(plan, node)),
        }
    }

    /// How many packets arrived so far, strays too.
    pub fn handled(&self) -> u64
        ensures { result ≡ arrivals_in self.now.actor.log }
    {
        self.node.handled()
    }

    /// Its logical clock.
    pub fn clock(&self) -> u64
        ensures { result ≡ self.now.actor.clock }
    {
        self.node.clock()
    }

    /// What it did, in order.
    pub fn log(&self) -> &Log<L>
        ensures { result.now.entries ≡ self.now.actor.log }
    {
        self.node.log()
    }

    /// Its log, for good.
    pub fn into_log(self) -> Log<L>
        ensures { result.entries ≡ self.entry.actor.log }
    {
        self.node.into_log()
    }

    /// The number of stored messages.
    pub fn stored(&self) -> usize
        ensures { result ≡ length self.now.actor.state.stored }
    {
        self.node.stored()
    }

    /// Whether the message that is passed next is stored.
    pub fn can_pass(&self) -> bool
        ensures { let s = self.now.actor.state in MatchBool result (CanPass s) (¬ CanPass s) }
    {
        self.node.can_pass()
    }

    /// A packet arrives on a link. Where the table has a row for it, that is made; else it is
    /// logged as a stray, and changes nothing else. After NoMemory all is as before, and no number
    /// is drawn.
    pub fn arrive<N: Numbers, O: Outlet<L>>(
        &mut self,
        link: u32,
        stamped: Stamped<L>,
        numbers: &mut N,
        outlet: &mut O,
    ) -> Result<(), NoMemory>
        requires links { let p = self.old.plan in
            HasLinksFrom p (actor_of p self.old.number) (O.has_link outlet.old) }
        requires clock { self.old.actor.clock < MOST_CLOCK }
        requires stamp { stamped.clock < MOST_CLOCK }
        ensures node { SameNode self.old self.new }
        ensures made { OnOk result (ArrivesBy (tree_kind self.old.plan) self.old.number
            link stamped self.old.actor self.new.actor (O.lists outlet.old) (O.lists outlet.new)
            (λ d. Drew N.limit N.drawn N.closed N.stays d numbers.old numbers.new)) }
        ensures err { OnErr result ((self.new ≡ self.old) × (numbers.new ≡ numbers.old)
            × SameLists (O.lists outlet.old) (O.lists outlet.new)) }
        ensures links { SameLinks (O.has_link outlet.old) (O.has_link outlet.new) }
        ensures rest { O.rest outlet.new ≡ O.rest outlet.old }
    {
        self.node.arrive(link, stamped, numbers, outlet)
    }

    /// Passes the next message on, and answers true; false where it is not stored, and nothing
    /// changes. Nor does anything after NoMemory.
    pub fn pass<O: Outlet<L>>(&mut self, outlet: &mut O) -> Result<bool, NoMemory>
        requires links { let p = self.old.plan in
            HasLinksFrom p (actor_of p self.old.number) (O.has_link outlet.old) }
        requires clock { self.old.actor.clock < MOST_CLOCK }
        ensures node { SameNode self.old self.new }
        ensures made { IfOk result (λ r. MatchBool r
            (PassesBy (tree_kind self.old.plan) self.old.number self.old.actor self.new.actor
            (O.lists outlet.old) (O.lists outlet.new))
            (¬ CanPass self.old.actor.state)) }
        ensures stays { IfOk result (λ r. OnFalse r
            ((self.new ≡ self.old) × SameLists (O.lists outlet.old) (O.lists outlet.new))) }
        ensures err { OnErr result
            ((self.new ≡ self.old) × SameLists (O.lists outlet.old) (O.lists outlet.new)) }
        ensures links { SameLinks (O.has_link outlet.old) (O.has_link outlet.new) }
        ensures rest { O.rest outlet.new ≡ O.rest outlet.old }
    {
        self.node.pass(outlet)
    }
}

fn crosses_threads<T: Send>() {}

/// A node may go to another thread with its labels.
fn nodes_cross_threads<'p, L: Drop + Send + Sync>() {
    crosses_threads::<TreeNode<'p, L>>();
}
