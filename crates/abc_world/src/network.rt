ghost use Rattle.std.specs.Prelude.{◌≡◌, ◌<◌, ◌≤◌, ◌-◌, ◌+◌, ◌*◌, ℕ, length, map, [], vec_capacity, Some, slice_get, MatchBool, IfOk, OnErr, IsTrue};
ghost use Rattle.abc_shape.specs.Plans.{IsLink, actor_of, link_count};
ghost use Rattle.abc_schedule.specs.Laws.{ClocksWithin};
ghost use Rattle.abc_schedule.specs.Schedules as Schedules;
ghost use Rattle.abc_net.specs.Records as Records;
ghost use Rattle.abc_world.specs.Teams.{AreAgents};
ghost use Rattle.abc_world.specs.Crews.{AreNodes};
ghost use Rattle.abc_world.specs.Runnings.{SameNetwork, Answers, net_of};
ghost use Rattle.abc_world.specs.declared.event.EventKind.TheVariants.{Ask, Arrive, Take, Turn, Pass};

use crate::counter::OneCounter;
use crate::event::{Event, EventKind, Moved};
use crate::links::Links;
use crate::node::Node;
use crate::records::{leave_agents, leave_nodes};
use crate::{delivery, moving, passing};
use abc_agent::Agent;
use abc_body::Body;
use abc_net::Record;
use abc_packet::{List, Log, MOST_CLOCK, NoMemory};
use abc_shape::Plan;
use std::alloc::Global;
use std::marker::Model;

/// A network of agents and sequencing nodes of one kind, on one thread.
///
/// Contracts see its plan, the greatest number that is drawn, where the turns begin, and the state
/// of the network that it is.
#[derive(Drop)]
pub struct Network<'p, B: Body, M: Node<B::Label>> {
    pub(crate) plan: &'p Plan,
    pub(crate) pick: u64,
    pub(crate) agents: Vec<Agent<'p, B>>,
    pub(crate) nodes: Vec<M>,
    pub(crate) links: Links<B::Label>,
    pub(crate) numbers: OneCounter,
    pub(crate) alloc: Global,
}

impl<'p, B: Body, M: Node<B::Label>> Model for Network<'p, B, M> {
    ghost use Rattle.std.specs.Prelude.{◌≡◌, map, length};
    ghost use Rattle.abc_shape.specs.Plans.{link_count};
    ghost use Rattle.abc_world.specs.Teams.{AreAgents};
    ghost use Rattle.abc_world.specs.Crews.{AreNodes};
    ghost use Rattle.abc_world.specs.Runnings.{Running, net_of};

    ghost Value = { Running B B.Label M.State };

    ghost view = { λ w. record {
      plan = w.plan.now;
      limit = w.numbers.limit;
      pick = w.pick;
      net = net_of w.agents.items (map M.node w.nodes.items) w.links.queues w.numbers;
    } };

    ghost invariant = { λ w.
        AreAgents w.plan.now w.pick w.agents.items × AreNodes w.plan.now (map M.node w.nodes.items)
        × (length w.links.queues ≡ link_count w.plan.now) };
}

/// What is answered, by whether it was done.
fn answer(made: bool) -> Moved
    ensures { MatchBool made (result ≡ Moved.Done) (result ≡ Moved.NotEnabled) }
{
    if made { Moved::Done } else { Moved::NotEnabled }
}

/// Whether a link ends at an actor.
fn ends_at(plan: &Plan, link: u32, actor: u32) -> bool
    ensures { MatchBool result ((from : ℕ) × IsLink plan.now link from actor)
        ((from : ℕ) → IsLink plan.now link from actor → ⊥) }
{
    let links = plan.links();
    if (link as usize) < links.len() {
        links[link as usize].to == actor
    } else {
        false
    }
}

impl<'p, B: Body, M: Node<B::Label>> Network<'p, B, M> {
    /// The network of these agents, nodes, links and counter.
    pub(crate) fn new(
        alloc: Global,
        plan: &'p Plan,
        pick: u64,
        agents: Vec<Agent<'p, B>>,
        nodes: Vec<M>,
        links: Links<B::Label>,
        numbers: OneCounter,
    ) -> Network<'p, B, M>
        requires agents { AreAgents plan.now pick agents.items }
        requires nodes { AreNodes plan.now (map M.node nodes.items) }
        requires links { length links.queues ≡ link_count plan.now }
        ensures { result ≡ record {
          plan = plan.now;
          limit = numbers.limit;
          pick = pick;
          net = net_of agents.entry.items (map M.node nodes.items) links.queues numbers;
        } }
    {
        Network {
            plan,
            pick,
            agents,
            nodes,
            links,
            numbers,
            alloc,
        }
    }

    /// How many actors it has.
    pub(crate) fn actors(&self) -> u32
        ensures { let p = self.now.plan in result ≡ p.agents + p.nodes }
    {
        self.plan.agents() + self.plan.nodes()
    }

    /// The first actor that may have an event to make.
    pub(crate) fn first_awake(&self) -> Option<u32> {
        self.links.first_awake()
    }

    /// An actor that can make no event is put to rest, until something is sent to it.
    pub(crate) fn rest(&mut self, actor: u32)
        ensures { self.new ≡ self.old }
    {
        self.links.rest(actor);
    }

    /// One more than the greatest number of events of a run of this network.
    pub(crate) fn most_events(&self) -> u64
        ensures { let p = self.now.plan in let limit = self.now.limit in
            result ≡ 15 * (limit + p.agents) + limit * (2 * p.agents + 2 * p.nodes) + 1 }
    {
        let agents = u64::from(self.plan.agents());
        let nodes = u64::from(self.plan.nodes());
        let limit = u64::from(self.numbers.limit());
        15 * (limit + agents) + limit * (2 * agents + 2 * nodes) + 1
    }

    /// An agent asks for a number, if it can.
    fn ask(&mut self, actor: u32) -> Result<Moved, NoMemory>
        requires low { ClocksWithin (MOST_CLOCK - 1) self.old.net }
        ensures same { SameNetwork self.old self.new }
        ensures answers { IfOk result
            (λ r. Answers B.meaning M.machine M.blank actor Ask self.old r self.new) }
        ensures err { OnErr result (self.new ≡ self.old) }
    {
        if actor >= self.plan.agents() {
            return Ok(Moved::NotEnabled);
        }
        let made = moving::ask(&mut self.agents, actor, &mut self.links)?;
        Ok(answer(made))
    }

    /// An agent takes the message of the next number, if it can.
    fn take(&mut self, actor: u32) -> Result<Moved, NoMemory>
        requires low { ClocksWithin (MOST_CLOCK - 1) self.old.net }
        ensures same { SameNetwork self.old self.new }
        ensures answers { IfOk result
            (λ r. Answers B.meaning M.machine M.blank actor Take self.old r self.new) }
        ensures err { OnErr result (self.new ≡ self.old) }
    {
        if actor >= self.plan.agents() {
            return Ok(Moved::NotEnabled);
        }
        let made = moving::take_if_can(self.alloc, &mut self.agents, actor)?;
        Ok(answer(made))
    }

    /// An agent has its turn at the next number, if it can.
    fn turn(&mut self, actor: u32) -> Result<Moved, NoMemory>
        requires low { ClocksWithin (MOST_CLOCK - 1) self.old.net }
        ensures same { SameNetwork self.old self.new }
        ensures answers { IfOk result
            (λ r. Answers B.meaning M.machine M.blank actor Turn self.old r self.new) }
        ensures err { OnErr result (self.new ≡ self.old) }
    {
        if actor >= self.plan.agents() {
            return Ok(Moved::NotEnabled);
        }
        let made = moving::turn_if_can(self.alloc, &mut self.agents, actor, &mut self.links)?;
        Ok(answer(made))
    }

    /// The first packet of a link arrives at an agent at which the link ends.
    fn arrive_at_agent(&mut self, actor: u32, link: u32) -> Result<Moved, NoMemory>
        requires agent { actor < self.old.plan.agents }
        requires ends { (from : ℕ) × IsLink self.old.plan link from actor }
        requires low { ClocksWithin (MOST_CLOCK - 1) self.old.net }
        ensures same { SameNetwork self.old self.new }
        ensures answers { IfOk result
            (λ r. Answers B.meaning M.machine M.blank actor (Arrive link) self.old r self.new) }
        ensures err { OnErr result (self.new ≡ self.old) }
    {
        let _agents = self.plan.agents();
        let made = delivery::to_agent(&mut self.agents, actor, link, &mut self.links)?;
        Ok(answer(made))
    }

    /// The first packet of a link arrives at a node at which the link ends.
    fn arrive_at_node(&mut self, actor: u32, link: u32) -> Result<Moved, NoMemory>
        requires node { self.old.plan.agents ≤ actor }
        requires ends { (from : ℕ) × IsLink self.old.plan link from actor }
        requires low { ClocksWithin (MOST_CLOCK - 1) self.old.net }
        ensures same { SameNetwork self.old self.new }
        ensures answers { IfOk result
            (λ r. Answers B.meaning M.machine M.blank actor (Arrive link) self.old r self.new) }
        ensures err { OnErr result (self.new ≡ self.old) }
    {
        let node = actor - self.plan.agents();
        let numbers = &mut self.numbers;
        let made = delivery::to_node(&mut self.nodes, node, link, numbers, &mut self.links)?;
        let _count = self.numbers.count();
        Ok(answer(made))
    }

    /// A node passes the message of the next number on, if it can.
    fn pass(&mut self, actor: u32) -> Result<Moved, NoMemory>
        requires low { ClocksWithin (MOST_CLOCK - 1) self.old.net }
        ensures same { SameNetwork self.old self.new }
        ensures answers { IfOk result
            (λ r. Answers B.meaning M.machine M.blank actor Pass self.old r self.new) }
        ensures err { OnErr result (self.new ≡ self.old) }
    {
        let agents = self.plan.agents();
        if actor < agents {
            return Ok(Moved::NotEnabled);
        }
        let node = actor - agents;
        if node >= self.plan.nodes() {
            return Ok(Moved::NotEnabled);
        }
        let made = passing::pass(&mut self.nodes, node, &mut self.links)?;
        Ok(answer(made))
    }

    /// The first packet of a link arrives at an actor at which the link ends, if there is one.
    fn arrive(&mut self, actor: u32, link: u32) -> Result<Moved, NoMemory>
        requires low { ClocksWithin (MOST_CLOCK - 1) self.old.net }
        ensures same { SameNetwork self.old self.new }
        ensures answers { IfOk result
            (λ r. Answers B.meaning M.machine M.blank actor (Arrive link) self.old r self.new) }
        ensures err { OnErr result (self.new ≡ self.old) }
    {
        if !ends_at(self.plan, link, actor) {
            return Ok(Moved::NotEnabled);
        }
        if actor < self.plan.agents() {
            self.arrive_at_agent(actor, link)
        } else {
            self.arrive_at_node(actor, link)
        }
    }

    /// Makes an event, where the network has it; `NotEnabled`, and nothing changes, exactly where
    /// it has none. A draw of a node is that of the network's one counter. After NoMemory all is as
    /// before.
    pub fn step(&mut self, event: &Event) -> Result<Moved, NoMemory>
        requires low { ClocksWithin (MOST_CLOCK - 1) self.old.net }
        ensures same { SameNetwork self.old self.new }
        ensures answers { IfOk result (λ r.
            Answers B.meaning M.machine M.blank event.now.actor event.now.kind self.old r
            self.new) }
        ensures err { OnErr result (self.new ≡ self.old) }
    {
        match event.kind {
            EventKind::Ask => self.ask(event.actor),
            EventKind::Arrive { link } => self.arrive(event.actor, link),
            EventKind::Take => self.take(event.actor),
            EventKind::Turn => self.turn(event.actor),
            EventKind::Pass => self.pass(event.actor),
        }
    }

    /// Its record, for good. The list has no logs, and room for that of each actor; it takes no
    /// memory.
    pub(crate) fn into_record(self, mut logs: Vec<Log<B::Label>>) -> Record<B::Label>
        requires none { logs.items ≡ [] }
        requires room { self.plan.agents + self.plan.nodes ≤ vec_capacity logs }
        ensures shape { result.shape ≡ self.entry.plan.shape }
        ensures agents { result.agents ≡ self.entry.plan.agents }
        ensures nodes { result.nodes ≡ self.entry.plan.nodes }
        ensures limit { result.limit ≡ self.entry.limit }
        ensures pick { result.pick ≡ self.entry.pick }
        ensures logs { Records.logs_of result ≡ Schedules.logs_of self.entry.net }
    {
        let Network {
            plan,
            pick,
            agents,
            nodes,
            numbers,
            ..
        } = self;
        leave_agents(agents, &mut logs);
        leave_nodes(nodes, &mut logs);
        Record {
            shape: plan.shape(),
            agents: plan.agents(),
            nodes: plan.nodes(),
            limit: numbers.limit(),
            pick,
            logs: List::from_vec(logs),
        }
    }
}
