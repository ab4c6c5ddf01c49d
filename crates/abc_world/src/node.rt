ghost use Rattle.std.specs.Prelude.{◌≡◌, ◌<◌, ℕ, [], length, MatchBool, IfOk, OnOk, OnErr};
ghost use Rattle.std.specs.Bool.{OnFalse};
ghost use Rattle.abc_shape.specs.declared.layout.Layout.{Layout};
ghost use Rattle.abc_shape.specs.Plans.{actor_of};
ghost use Rattle.abc_network.specs.Nodes.{NodeMachine};
ghost use Rattle.abc_logs.specs.MicroSteps.{Makes};
ghost use Rattle.abc_history.specs.Nodes.{SeenNode, Arrives};
ghost use Rattle.abc_history.specs.Outs.{HasLinksFrom};
ghost use Rattle.abc_world.specs.Kinds.{IsPass};
ghost use Rattle.abc_world.specs.Crews.{SameNode, DrewOf, lists_in};
ghost use Rattle.abc_world.specs.Runnings.{AreNodeTables};

use crate::counter::OneCounter;
use crate::links::Links;
use abc_packet::{Log, MOST_CLOCK, NoMemory, Stamped};

/// A sequencing node, as a network on one thread has it.
///
/// Contracts see by `machine` the tables of the nodes of a plan, and by `node` the actor that it
/// is.
pub trait Node<L>: Drop {
    /// What it keeps beside its clock and its log.
    type State;

    ghost machine: { Layout → NodeMachine L Self.State };

    ghost node: { Self → SeenNode Self.State L };

    // the state in which it begins
    ghost blank: { Self.State };

    /// A packet arrives on a link: one micro-step. After NoMemory all is as before.
    fn arrive(
        &mut self,
        link: u32,
        stamped: Stamped<L>,
        numbers: &mut OneCounter,
        links: &mut Links<L>,
    ) -> Result<(), NoMemory>
        requires leads { let n = node self.old in
            HasLinksFrom n.plan (actor_of n.plan n.number) (λ l. l < length links.old.queues) }
        requires clock { (node self.old).actor.clock < MOST_CLOCK }
        requires stamp { stamped.clock < MOST_CLOCK }
        ensures same { SameNode (node self.old) (node self.new) }
        ensures made { let n = node self.old in
            OnOk result (Arrives ((machine n.plan).does n.number) link stamped n.actor
            (node self.new).actor (lists_in links.old.queues) (lists_in links.new.queues)
            (DrewOf numbers.old numbers.new)) }
        ensures links { length links.new.queues ≡ length links.old.queues }
        ensures err { OnErr result ((node self.new ≡ node self.old) × (numbers.new ≡ numbers.old)
            × (links.new.queues ≡ links.old.queues)) };

    /// Passes the message of the next number on, and answers true; false where it can't, and
    /// nothing changes. Nor does anything after NoMemory.
    fn pass(&mut self, links: &mut Links<L>) -> Result<bool, NoMemory>
        requires leads { let n = node self.old in
            HasLinksFrom n.plan (actor_of n.plan n.number) (λ l. l < length links.old.queues) }
        requires clock { (node self.old).actor.clock < MOST_CLOCK }
        ensures same { SameNode (node self.old) (node self.new) }
        ensures made { let n = node self.old in
            IfOk result (λ r. MatchBool r
            ((step : Makes ((machine n.plan).does n.number) [] n.actor (node self.new).actor
            (lists_in links.old.queues) (lists_in links.new.queues)) × IsPass step.entry.deed)
            (¬ (machine n.plan).can_pass n.actor.state)) }
        ensures links { length links.new.queues ≡ length links.old.queues }
        ensures stays { IfOk result (λ r. OnFalse r
            ((node self.new ≡ node self.old) × (links.new.queues ≡ links.old.queues))) }
        ensures err { OnErr result
            ((node self.new ≡ node self.old) × (links.new.queues ≡ links.old.queues)) };

    /// Whether it can pass a message on.
    fn can_pass(&self) -> bool
        ensures { let n = node self.now in
            MatchBool result ((machine n.plan).can_pass n.actor.state)
            (¬ (machine n.plan).can_pass n.actor.state) };

    /// Its log, for good.
    fn into_log(self) -> Log<L>
        ensures { result.entries ≡ (node self).actor.log };

    // nodes ask for nothing, and take and turn no number
    ghost tables: { AreNodeTables machine };
}
