//! The rows of a ring's node.
ghost use Rattle.std.specs.Prelude.{◌≡◌, ◌<◌, All, MatchBool, IfOk};
ghost use Rattle.std.specs.Bool.{OnTrue};
ghost use Rattle.abc_shape.specs.declared.shape.Shape.TheVariants.{Ring};
ghost use Rattle.abc_shape.specs.Plans.{home};
ghost use Rattle.abc_network.specs.Rings.{homed_from};
ghost use Rattle.abc_ring.specs.Seats.{LeavesFrom, IsFromBefore, AsksHere, goes_to};

use abc_packet::{List, NoMemory, Packet};
use abc_shape::Plan;
use abc_store::{Handling, Rows};
use std::alloc::Global;
use std::marker::Model;

/// The rows of one node of a ring. Contracts see its plan and its number.
#[derive(Drop)]
pub(crate) struct RingRows<'p> {
    plan: &'p Plan,
    node: u32,
}

impl<'p> Model for RingRows<'p> {
    ghost use Rattle.abc_ring.specs.Seats.{Seat, IsSeat};

    ghost Value = { Seat };

    ghost view = { λ r. record { plan = r.plan.now; node = r.node } };

    ghost invariant = { λ r. IsSeat r.plan.now r.node };
}

/// Whether a message goes on from a node to this agent: it is homed there, and not the sender.
fn goes_on_to(plan: &Plan, node: u32, sender: u32, agent: u32) -> bool
    ensures value { result ≡ goes_to plan.now node sender agent }
    ensures homed { OnTrue result (home plan.now agent ≡ node) }
{
    agent != sender && plan.home(agent) == node
}

/// The links to the agents homed at a node, but none to the sender.
fn links_to_homed(alloc: Global, plan: &Plan, node: u32, sender: u32) -> Result<List<u32>, NoMemory>
    requires { plan.now.shape ≡ Ring }
    ensures links { IfOk result (λ ls. ls ≡ homed_from plan.now node sender 0 plan.now.agents) }
    ensures leave { IfOk result (λ ls. All (LeavesFrom plan.now node) ls) }
{
    let agents = plan.agents();
    let mut links = List::new(alloc);
    'looking: for agent in 0..agents {
        if goes_on_to(plan, node, sender, agent) {
            links.push(2 * agent + 1)?;
        }
    }
    Ok(links)
}

impl<'p> RingRows<'p> {
    /// The rows of a node of a ring.
    pub(crate) fn new(plan: &'p Plan, node: u32) -> RingRows<'p>
        requires ring { plan.now.shape ≡ Ring }
        requires node { node < plan.now.nodes }
        ensures { result ≡ record { plan = plan.now; node = node } }
    {
        RingRows { plan, node }
    }

    /// Whether a link comes from the node before this one.
    fn is_from_before(&self, link: u32) -> bool
        ensures { let before = IsFromBefore self.now.plan self.now.node link in
            MatchBool result before (¬ before) }
    {
        let past = 2 * self.plan.agents();
        if link < past {
            return false;
        }
        let before = link - past;
        before < self.plan.nodes() && self.plan.successor(before) == self.node
    }

    /// Whether a link comes from this agent, which is homed here.
    fn asks_here(&self, link: u32, agent: u32) -> bool
        ensures asks { let asks = AsksHere self.now.plan self.now.node link agent in
            MatchBool result asks (¬ asks) }
        ensures ring { self.now.plan.shape ≡ Ring }
    {
        agent < self.plan.agents() && self.plan.home(agent) == self.node && link == 2 * agent
    }
}

impl<'p, L: Drop> Rows<L> for RingRows<'p> {
    ghost use Rattle.abc_network.specs.Rings.{ring_kind};
    ghost use Rattle.abc_ring.specs.Seats.{LeavesFrom};

    ghost kind = { λ r. ring_kind r.plan };

    ghost node = { λ r. r.node };

    ghost leaves = { λ r. LeavesFrom r.plan r.node };

    fn degree(&self) -> usize {
        self.plan.agents() as usize + 1
    }

    fn accepts(&self, link: u32, sender: u32) -> bool {
        if sender >= self.plan.agents() {
            return false;
        }
        if self.plan.home(sender) == self.node {
            return link == 2 * sender;
        }
        self.is_from_before(link)
    }

    fn handling(&self, link: u32, packet: &Packet<L>) -> Handling {
        match packet {
            Packet::Request { agent } => {
                let agent = *agent;
                if !self.asks_here(link, agent) {
                    return Handling::Nothing;
                }
                let back = 2 * agent + 1;
                Handling::Answers { agent, back }
            }
            Packet::Reply { .. } | Packet::Message { .. } => Handling::Nothing,
        }
    }

    fn outs(&self, alloc: Global, sender: u32, _came: u32) -> Result<List<u32>, NoMemory> {
        let mut links = links_to_homed(alloc, self.plan, self.node, sender)?;
        if self.plan.successor(self.node) != self.plan.home(sender) {
            links.push(2 * self.plan.agents() + self.node)?;
        }
        Ok(links)
    }
}
