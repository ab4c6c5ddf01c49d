ghost use Rattle.std.specs.Prelude.{◌≡◌, ◌<◌, ◌≤◌, ◌+◌, length, map, IfOk, OnOk, OnErr, IfNone, IfSome, MatchBool};
ghost use Rattle.abc_shape.specs.Plans.{IsLayout};
ghost use Rattle.abc_network.specs.Networks.{Netrun, Event, start_of};
ghost use Rattle.abc_network.specs.Quiets.{IsStill, IsQuiet};
ghost use Rattle.abc_network_laws.specs.Kept.{Each};
ghost use Rattle.abc_world.specs.Crews.{AreNodes};
ghost use Rattle.abc_world.specs.Listing.{CanMake, IsStillIn};
ghost use Rattle.abc_world.specs.Fronts.{IsLeastFront};
ghost use Rattle.abc_world.specs.Runnings.{SameNetwork, Answers, rules_of};
ghost use Rattle.abc_world.specs.Starting.{HasLaws, AreBlank, RunsTo, LeavesLegal, started};
ghost use Rattle.abc_schedule.specs.Schedules as Schedules;
ghost use Rattle.abc_net.specs.Records as Records;

use crate::counter::OneCounter;
use crate::event::{Event, Moved};
use crate::in_links::links_by_end;
use crate::links::Links;
use crate::network::Network;
use crate::node::Node;
use crate::team::team;
use abc_body::Body;
use abc_net::Record;
use abc_number::MOST_LIMIT;
use abc_packet::{List, Log, NoMemory};
use abc_shape::Plan;
use std::alloc::Global;
use std::marker::Model;

/// A network that was started, and the events that it makes.
///
/// Contracts see it as the network that it is.
#[derive(Drop)]
pub struct Started<'p, B: Body, M: Node<B::Label>> {
    network: Network<'p, B, M>,
    // the links that end at each actor, and room for events that can be made
    in_links: Vec<List<u32>>,
    events: Vec<Event>,
    // room for the log of each actor
    logs: Vec<Log<B::Label>>,
}

impl<'p, B: Body, M: Node<B::Label>> Model for Started<'p, B, M> {
    ghost use Rattle.abc_world.specs.InLinks.{AreInLinks};
    ghost use Rattle.abc_world.specs.Runnings.{Running};
    ghost use Rattle.abc_world.specs.Starting.{IsStarted, HasRoom};

    ghost Value = { Running B B.Label M.State };

    ghost view = { λ s. s.network };

    ghost invariant = { λ s.
        IsStarted B.meaning M.machine M.blank s.network
        × AreInLinks s.network.plan s.in_links.items × HasRoom s.network.plan s.logs };
}

impl<'p, B: Body, M: Node<B::Label>> Started<'p, B, M> {
    /// The network of this plan with these bodies and nodes, at its start. Its numbers go up to
    /// `limit`, and its turns begin at `pick`.
    pub fn start(
        alloc: Global,
        plan: &'p Plan,
        bodies: Vec<B>,
        nodes: Vec<M>,
        limit: u32,
        pick: u64,
    ) -> Result<Started<'p, B, M>, NoMemory>
        requires many { length bodies.items ≡ plan.now.agents }
        requires sound { Each B.meaning.sound bodies.items }
        requires nodes { AreNodes plan.now (map M.node nodes.items) }
        requires blank { AreBlank M.blank plan.now (map M.node nodes.items) }
        requires some { 0 < limit }
        requires bounded { limit ≤ MOST_LIMIT }
        requires pick { pick ≤ 4294967295 }
        requires laws { HasLaws B.meaning (rules_of M.machine M.blank plan.now limit pick) }
        ensures { IfOk result (λ w. w ≡ started M.machine M.blank plan.now limit pick bodies.items) }
    {
        let actors = plan.agents() + plan.nodes();
        let logs = Vec::with_capacity(alloc, actors as usize)?;
        let agents = team(alloc, plan, bodies, pick)?;
        let links = Links::new(alloc, plan)?;
        let numbers = OneCounter::new(limit);
        let network = Network::new(alloc, plan, pick, agents, nodes, links, numbers);
        let in_links = links_by_end(alloc, plan)?;
        let events = Vec::new(alloc);
        Ok(Started {
            network,
            in_links,
            events,
            logs,
        })
    }

    /// Makes an event, where the network has it; `NotEnabled`, and nothing changes, exactly where
    /// it has none. After NoMemory all is as before.
    pub fn step(&mut self, event: &Event) -> Result<Moved, NoMemory>
        ensures same { SameNetwork self.old self.new }
        ensures answers { IfOk result (λ r.
            Answers B.meaning M.machine M.blank event.now.actor event.now.kind self.old r
            self.new) }
        ensures err { OnErr result (self.new ≡ self.old) }
    {
        self.network.step(event)
    }

    /// An event that can be made: the one at place `order` modulo their number, in order of actor
    /// and then of what it does. None where the network is still.
    fn next(&mut self, order: u64) -> Result<Option<Event>, NoMemory>
        ensures same { self.new ≡ self.old }
        ensures some { IfOk result (λ o. IfSome o
            (λ e. CanMake B.meaning M.machine M.blank self.old e)) }
        ensures none { IfOk result (λ o. IfNone o
            (IsStillIn B.meaning M.machine M.blank self.old)) }
    {
        self.events.clear();
        self.network
            .add_all(self.in_links.as_slice(), &mut self.events)?;
        let count = self.events.len();
        if count == 0 {
            return Ok(None);
        }
        let place = order % count as u64;
        Ok(Some(self.events[place as usize]))
    }

    /// The first event that an actor can make. Where it can make none it is put to rest.
    fn first_of(&mut self, actor: u32) -> Result<Option<Event>, NoMemory>
        requires there { actor < self.old.plan.agents + self.old.plan.nodes }
        ensures same { self.new ≡ self.old }
        ensures some { IfOk result (λ o. IfSome o
            (λ e. CanMake B.meaning M.machine M.blank self.old e)) }
    {
        self.events.clear();
        self.network
            .add_of(actor, self.in_links.as_slice(), &mut self.events)?;
        if self.events.len() == 0 {
            self.network.rest(actor);
            return Ok(None);
        }
        Ok(Some(self.events[0]))
    }

    /// The first event of the first actor that may have one. None says nothing of the network.
    fn first_awake(&mut self) -> Result<Option<Event>, NoMemory>
        ensures same { self.new ≡ self.old }
        ensures some { IfOk result (λ o. IfSome o
            (λ e. CanMake B.meaning M.machine M.blank self.old e)) }
    {
        let actors = self.network.actors();
        'looking: for _ in 0..actors {
            let Some(actor) = self.network.first_awake() else {
                return Ok(None);
            };
            if actor >= actors {
                return Ok(None);
            }
            if let Some(event) = self.first_of(actor)? {
                return Ok(Some(event));
            }
        }
        Ok(None)
    }

    /// The event that `order` picks, as `next` tells it. Where that is the first, the actors that
    /// have nothing to do are not asked again.
    fn pick(&mut self, order: u64) -> Result<Option<Event>, NoMemory>
        ensures same { self.new ≡ self.old }
        ensures some { IfOk result (λ o. IfSome o
            (λ e. CanMake B.meaning M.machine M.blank self.old e)) }
        ensures none { IfOk result (λ o. IfNone o
            (IsStillIn B.meaning M.machine M.blank self.old)) }
    {
        if order == 0 {
            if let Some(event) = self.first_awake()? {
                return Ok(Some(event));
            }
        }
        self.next(order)
    }

    /// Makes events until none can be made, each time the one at place `order` modulo their number,
    /// in order of actor and then of what it does. After NoMemory the events made stand whole.
    pub fn run_to_quiet(&mut self, order: u64) -> Result<(), NoMemory>
        ensures same { SameNetwork self.old self.new }
        ensures ran { RunsTo B.meaning M.machine M.blank self.old self.new }
        ensures still { OnOk result (IsStillIn B.meaning M.machine M.blank self.new) }
    {
        let most = self.network.most_events();
        'running: for _ in 0..most {
            let Some(event) = self.pick(order)? else {
                return Ok(());
            };
            self.step(&event)?;
        }
        Ok(())
    }

    /// The least of all agents' fronts: up to it, every agent has moved.
    pub fn least_front(&self) -> u32
        ensures { IsLeastFront self.now result }
    {
        self.network.least_front()
    }

    /// Whether it is quiet: nothing is on a link, no message is stored, and no actor can do anything.
    pub fn is_quiet(&self) -> bool
        ensures { let r = rules_of M.machine M.blank self.now.plan self.now.limit self.now.pick in
            MatchBool result (IsQuiet B.meaning r self.now.net) (¬ IsQuiet B.meaning r self.now.net) }
    {
        self.network.is_still()
    }

    /// What is left of it: the record with the plan's shape and numbers, the limit, the pick, and
    /// the log of each actor. It takes no memory. Where it is still, and came from its start with
    /// these bodies, the record is legal.
    pub fn into_record(self) -> Record<B::Label>
        ensures shape { result.shape ≡ self.entry.plan.shape }
        ensures agents { result.agents ≡ self.entry.plan.agents }
        ensures nodes { result.nodes ≡ self.entry.plan.nodes }
        ensures limit { result.limit ≡ self.entry.limit }
        ensures pick { result.pick ≡ self.entry.pick }
        ensures logs { Records.logs_of result ≡ Schedules.logs_of self.entry.net }
        ensures legal { LeavesLegal B.meaning M.machine M.blank self.entry (Records.logs_of result) }
    {
        let Started { network, logs, .. } = self;
        network.into_record(logs)
    }
}
