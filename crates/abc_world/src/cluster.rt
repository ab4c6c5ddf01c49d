//! A cluster's node in a network on one thread.
ghost use Rattle.std.specs.Prelude.{◌≡◌, ◌<◌, length, OnOk, OnErr};
ghost use Rattle.abc_shape.specs.Plans.{actor_of};
ghost use Rattle.abc_network.specs.Nodes.{cluster_machine};
ghost use Rattle.abc_history.specs.Nodes.{Arrives};
ghost use Rattle.abc_history.specs.Outs.{HasLinksFrom};
ghost use Rattle.abc_world.specs.Crews.{SameNode, DrewOf, lists_in};

use crate::counter::OneCounter;
use crate::links::Links;
use crate::node::Node;
use abc_cluster::ClusterNode;
use abc_packet::{Log, MOST_CLOCK, NoMemory, Stamped};

impl<'p, L: Drop> Node<L> for ClusterNode<'p, L> {
    type State = ();

    ghost use Rattle.abc_network.specs.Nodes.{cluster_machine};
    ghost use Rattle.abc_world.specs.NodeTables.{cluster_tables};

    ghost machine = { λ p. cluster_machine p.agents p.nodes };

    ghost node = { λ n. n };

    ghost blank = { tt };

    fn arrive(
        &mut self,
        link: u32,
        stamped: Stamped<L>,
        numbers: &mut OneCounter,
        links: &mut Links<L>,
    ) -> Result<(), NoMemory>
        requires leads { let n = self.old in
            HasLinksFrom n.plan (actor_of n.plan n.number) (λ l. l < length links.old.queues) }
        requires clock { self.old.actor.clock < MOST_CLOCK }
        requires stamp { stamped.clock < MOST_CLOCK }
        ensures same { SameNode self.old self.new }
        ensures made { OnOk result (Arrives ((cluster_machine self.old.plan.agents self.old.plan.nodes).does self.old.number) link
            stamped self.old.actor self.new.actor (lists_in links.old.queues)
            (lists_in links.new.queues) (DrewOf numbers.old numbers.new)) }
        ensures links { length links.new.queues ≡ length links.old.queues }
        ensures err { OnErr result ((self.new ≡ self.old) × (numbers.new ≡ numbers.old)
            × (links.new.queues ≡ links.old.queues)) }
    {
        ClusterNode::arrive(self, link, stamped, numbers, links)
    }

    fn pass(&mut self, links: &mut Links<L>) -> Result<bool, NoMemory> {
        ClusterNode::pass(self, links)
    }

    fn can_pass(&self) -> bool {
        ClusterNode::can_pass(self)
    }

    fn into_log(self) -> Log<L> {
        ClusterNode::into_log(self)
    }

    ghost tables = { cluster_tables };
}
