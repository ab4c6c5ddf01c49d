//! Where a node of a cluster is: on which links packets come and go, and which row of the table a
//! packet has.
ghost use Rattle.std.specs.Prelude.{◌≡◌, ◌<◌, ◌≤◌, ◌^◌, ◌++◌, MatchBool, IfOk, OnOk};
ghost use Rattle.abc_shape.specs.declared.shape.Shape.TheVariants.{Cluster};
ghost use Rattle.abc_shape.specs.Plans.{IsLink, actor_of};
ghost use Rattle.abc_network.specs.Links.{to_agent, from_agent};
ghost use Rattle.abc_network.specs.Nodes.{copies_from};
ghost use Rattle.abc_logs.specs.MicroSteps.{stamped_with};
ghost use Rattle.abc_cluster.specs.Rows.{ComesFrom, IsRow};
ghost use Rattle.abc_cluster.specs.Stations.{IsStation};

use abc_packet::{MOST_CLOCK, NoMemory, Packet, Stamped};
use abc_shape::Plan;
use std::alloc::Global;
use std::collections::VecDeque;
use std::marker::Model;

/// The row of the table for a packet.
#[derive(Clone, Copy)]
pub(crate) enum Row {
    /// The request of this agent, on its link.
    Asks(u32),
    /// A message of this sender, on its link.
    Says(u32),
    /// All else.
    Other,
}

/// Where a node is: the plan of its network, which is a cluster's, and its number there.
#[derive(Drop)]
pub(crate) struct Station<'p> {
    plan: &'p Plan,
    number: u32,
}

impl<'p> Model for Station<'p> {
    ghost use Rattle.abc_cluster.specs.Stations.{SeenStation, IsStation};

    ghost Value = { SeenStation };

    ghost view = { λ s. record { plan = s.plan.now; number = s.number } };

    ghost invariant = { λ s. IsStation s.plan.now s.number };
}

impl<'p> Station<'p> {
    /// The node of this number in a cluster of this plan.
    pub(crate) fn new(plan: &'p Plan, number: u32) -> Station<'p>
        requires shape { plan.now.shape ≡ Cluster }
        requires node { number < plan.now.nodes }
        ensures plan { result.plan ≡ plan.now }
        ensures number { result.number ≡ number }
    {
        Station { plan, number }
    }

    /// To how many agents its links lead.
    pub(crate) fn agents(&self) -> u32
        ensures { result ≡ self.now.plan.agents }
    {
        self.plan.agents()
    }

    /// The link on which the packets of this agent come.
    fn link_from(&self, agent: u32) -> u32
        requires { agent < self.now.plan.agents }
        ensures number { result ≡ from_agent self.now.plan.nodes self.now.number agent }
        ensures small { result < 2 ^ 16 }
        ensures station { IsStation self.now.plan self.now.number }
    {
        2 * (agent * self.plan.nodes() + self.number)
    }

    /// The link that leads to this agent.
    pub(crate) fn link_to(&self, agent: u32) -> u32
        requires { agent < self.now.plan.agents }
        ensures number { result ≡ to_agent self.now.plan.nodes self.now.number agent }
        ensures leads { let p = self.now.plan in
            IsLink p result (actor_of p self.now.number) agent }
    {
        self.link_from(agent) + 1
    }

    /// Whether this is an agent of the plan and packets on this link are its own.
    fn comes_from(&self, link: u32, agent: u32) -> bool
        ensures { MatchBool result
            (ComesFrom self.now link agent) (¬ ComesFrom self.now link agent) }
    {
        agent < self.plan.agents() && link == self.link_from(agent)
    }

    /// The row for a packet on a link.
    fn row_of<L>(&self, link: u32, packet: &Packet<L>) -> Row
        ensures { IsRow self.now link packet.now result }
    {
        match packet {
            Packet::Request { agent } => {
                if self.comes_from(link, *agent) {
                    Row::Asks(*agent)
                } else {
                    Row::Other
                }
            }
            Packet::Reply { .. } => Row::Other,
            Packet::Message { sender, .. } => {
                if self.comes_from(link, *sender) {
                    Row::Says(*sender)
                } else {
                    Row::Other
                }
            }
        }
    }

    /// The row for a stamped packet on a link. It takes one more owner of the packet's label for
    /// a moment.
    pub(crate) fn row_in<L: Drop>(&self, link: u32, stamped: &Stamped<L>) -> Result<Row, NoMemory>
        ensures { IfOk result (λ row. IsRow self.now link stamped.now.packet row) }
    {
        let packet = stamped.packet()?;
        Ok(self.row_of(link, &packet))
    }

    /// Appends the copy for this agent, which has none where it is the sender.
    fn push_copy<L: Drop>(
        &self,
        ready: &mut VecDeque<(u32, Stamped<L>)>,
        sender: u32,
        agent: u32,
        stamped: &Stamped<L>,
        clock: u64,
    ) -> Result<(), NoMemory>
        requires agent { agent < self.now.plan.agents }
        requires clock { clock ≤ MOST_CLOCK }
        ensures { let s = self.now in OnOk result (ready.new.items ≡ ready.old.items ++
            stamped_with clock
            (copies_from s.plan.nodes s.number sender agent 1 stamped.now.packet)) }
    {
        if agent == sender {
            return Ok(());
        }
        let copy = Stamped::new(clock, stamped.packet()?);
        ready.push_back((self.link_to(agent), copy))?;
        Ok(())
    }

    /// One copy of a message for each agent but its sender, in order, at this clock.
    pub(crate) fn copies_of<L: Drop>(
        &self,
        alloc: Global,
        sender: u32,
        stamped: &Stamped<L>,
        clock: u64,
    ) -> Result<VecDeque<(u32, Stamped<L>)>, NoMemory>
        requires { clock ≤ MOST_CLOCK }
        ensures copies { let s = self.now in IfOk result (λ ready. ready.items ≡ stamped_with clock
            (copies_from s.plan.nodes s.number sender 0 s.plan.agents stamped.now.packet)) }
        ensures node { IfOk result (λ _. IsStation self.now.plan self.now.number) }
    {
        let mut ready = VecDeque::new(alloc);
        for agent in 0..self.plan.agents() {
            self.push_copy(&mut ready, sender, agent, stamped, clock)?;
        }
        Ok(ready)
    }
}
