//! A ring's node in a network on one thread.
ghost use Rattle.std.specs.Prelude.{◌≡◌, ◌<◌, length, OnOk, OnErr};
ghost use Rattle.abc_shape.specs.Plans.{actor_of};
ghost use Rattle.abc_network.specs.Stores.{store_machine};
ghost use Rattle.abc_network.specs.Rings.{ring_kind};
ghost use Rattle.abc_history.specs.Nodes.{Arrives};
ghost use Rattle.abc_history.specs.Outs.{HasLinksFrom};
ghost use Rattle.abc_world.specs.Crews.{SameNode, DrewOf, lists_in};

use crate::counter::OneCounter;
use crate::links::Links;
use crate::node::Node;
use crate::store::NodeStore;
use abc_packet::{Log, MOST_CLOCK, NoMemory, Stamped};
use abc_ring::RingNode;

impl<'p, L: Drop> Node<L> for RingNode<'p, L> {
    type State = NodeStore<L>;

    ghost use Rattle.abc_network.specs.Stores.{store_machine, blank_store};
    ghost use Rattle.abc_network.specs.Rings.{ring_kind};
    ghost use Rattle.abc_world.specs.NodeTables.{store_tables};

    ghost machine = { λ p. store_machine (ring_kind p) };

    ghost node = { λ n. n };

    ghost blank = { blank_store };

    fn arrive(
        &mut self,
        link: u32,
        stamped: Stamped<L>,
        numbers: &mut OneCounter,
        links: &mut Links<L>,
    ) -> Result<(), NoMemory>
        requires leads { let n = self.old in
            HasLinksFrom n.plan (actor_of n.plan n.number) (λ l. l < length links.old.queues) }
        requires clock { self.old.actor.clock < MOST_CLOCK }
        requires stamp { stamped.clock < MOST_CLOCK }
        ensures same { SameNode self.old self.new }
        ensures made { OnOk result (Arrives ((store_machine (ring_kind self.old.plan)).does self.old.number) link
            stamped self.old.actor self.new.actor (lists_in links.old.queues)
            (lists_in links.new.queues) (DrewOf numbers.old numbers.new)) }
        ensures links { length links.new.queues ≡ length links.old.queues }
        ensures err { OnErr result ((self.new ≡ self.old) × (numbers.new ≡ numbers.old)
            × (links.new.queues ≡ links.old.queues)) }
    {
        RingNode::arrive(self, link, stamped, numbers, links)
    }

    fn pass(&mut self, links: &mut Links<L>) -> Result<bool, NoMemory> {
        RingNode::pass(self, links)
    }

    fn can_pass(&self) -> bool {
        RingNode::can_pass(self)
    }

    fn into_log(self) -> Log<L> {
        RingNode::into_log(self)
    }

    ghost tables = { store_tables ring_kind };
}
