//! Which events a network can make next.
ghost use Rattle.std.specs.Prelude.{◌≡◌, ◌<◌, ◌≤◌, ◌+◌, ℕ, ◌∷◌, [], ◌++◌, length, MatchBool, OnOk};
ghost use Rattle.abc_world.specs.InLinks.{AreInLinks};
ghost use Rattle.abc_world.specs.Listing.{Listed, CanMake, Rests, AreLinksInto, AreEmpty, IsStillIn};

use crate::event::{Event, EventKind};
use crate::network::Network;
use crate::node::Node;
use crate::{moving, passing};
use abc_body::Body;
use abc_packet::{List, NoMemory};

/// Adds an event to a list, if it can be made.
fn add_if(can: bool, actor: u32, kind: EventKind, events: &mut Vec<Event>) -> Result<(), NoMemory>
    ensures { OnOk result (MatchBool can
        (events.new.items ≡ events.old.items ++ record { actor = actor; kind = kind } ∷ [])
        (events.new.items ≡ events.old.items)) }
{
    if can {
        events.push(Event { actor, kind })?;
    }
    Ok(())
}

impl<'p, B: Body, M: Node<B::Label>> Network<'p, B, M> {
    /// Adds the arrivals on these links, which end at an actor.
    fn add_arrivals(
        &self,
        actor: u32,
        links: &[u32],
        events: &mut Vec<Event>,
    ) -> Result<(), NoMemory>
        requires into { AreLinksInto self.now.plan actor links.now }
        ensures { OnOk result (Listed (CanMake B.meaning M.machine M.blank self.now)
            (AreEmpty self.now links.now (length links.now)) events.old.items events.new.items) }
    {
        let _limits = self.plan.agents();
        'listing: for place in 0..links.len() {
            let link = links[place];
            let waits = self.links.waits(link);
            add_if(waits, actor, EventKind::Arrive { link }, events)?;
        }
        Ok(())
    }

    /// Adds what an agent can do, where these links end at it.
    fn add_of_agent(
        &self,
        actor: u32,
        links: &[u32],
        events: &mut Vec<Event>,
    ) -> Result<(), NoMemory>
        requires agent { actor < self.now.plan.agents }
        requires into { AreLinksInto self.now.plan actor links.now }
        ensures { OnOk result (Listed (CanMake B.meaning M.machine M.blank self.now)
            (Rests B.meaning M.machine M.blank self.now actor) events.old.items events.new.items) }
    {
        let asks = moving::can_ask(self.agents.as_slice(), actor);
        let takes = moving::can_take(self.agents.as_slice(), actor);
        let turns = moving::can_turn(self.agents.as_slice(), actor);
        add_if(asks, actor, EventKind::Ask, events)?;
        self.add_arrivals(actor, links, events)?;
        add_if(takes, actor, EventKind::Take, events)?;
        add_if(turns, actor, EventKind::Turn, events)
    }

    /// Adds what a node can do, likewise.
    fn add_of_node(
        &self,
        actor: u32,
        links: &[u32],
        events: &mut Vec<Event>,
    ) -> Result<(), NoMemory>
        requires node { self.now.plan.agents ≤ actor }
        requires there { actor < self.now.plan.agents + self.now.plan.nodes }
        requires into { AreLinksInto self.now.plan actor links.now }
        ensures { OnOk result (Listed (CanMake B.meaning M.machine M.blank self.now)
            (Rests B.meaning M.machine M.blank self.now actor) events.old.items events.new.items) }
    {
        let node = actor - self.plan.agents();
        let passes = passing::can_pass(self.nodes.as_slice(), node);
        self.add_arrivals(actor, links, events)?;
        add_if(passes, actor, EventKind::Pass, events)
    }

    /// Adds what an actor can do, in order.
    pub(crate) fn add_of(
        &self,
        actor: u32,
        in_links: &[List<u32>],
        events: &mut Vec<Event>,
    ) -> Result<(), NoMemory>
        requires there { actor < self.now.plan.agents + self.now.plan.nodes }
        requires links { AreInLinks self.now.plan in_links.now }
        ensures { OnOk result (Listed (CanMake B.meaning M.machine M.blank self.now)
            (Rests B.meaning M.machine M.blank self.now actor) events.old.items events.new.items) }
    {
        let links = in_links[actor as usize].as_slice();
        if actor < self.plan.agents() {
            self.add_of_agent(actor, links, events)
        } else {
            self.add_of_node(actor, links, events)
        }
    }

    /// Adds what the actors can do, in order. Nothing was added where the network is still.
    pub(crate) fn add_all(
        &self,
        in_links: &[List<u32>],
        events: &mut Vec<Event>,
    ) -> Result<(), NoMemory>
        requires links { AreInLinks self.now.plan in_links.now }
        ensures { OnOk result (Listed (CanMake B.meaning M.machine M.blank self.now)
            (IsStillIn B.meaning M.machine M.blank self.now) events.old.items events.new.items) }
    {
        let count = self.plan.agents() + self.plan.nodes();
        'listing: for actor in 0..count {
            self.add_of(actor, in_links, events)?;
        }
        Ok(())
    }
}
