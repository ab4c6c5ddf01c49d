//! The rows of a tree's node.
ghost use Rattle.std.specs.Prelude.{◌≡◌, ℕ, ◌+◌, ◌*◌, ◌^◌, ◌<◌, ◌≤◌, option_to_list, All};
ghost use Rattle.std.specs.Prelude.{MatchBool, MatchOption};
ghost use Rattle.abc_shape.specs.declared.shape.Shape.TheVariants.{Tree};
ghost use Rattle.abc_network.specs.Links.{to_parent};
ghost use Rattle.abc_network.specs.Trees.{parent_of, child_of};
ghost use Rattle.abc_tree.specs.Seats.{LeavesFrom, IsFromParent, ComesFrom, GoesDown};

use crate::ways::{add, comes_back, ends_at, links_to_homed};
use abc_packet::{List, NoMemory, Packet};
use abc_shape::Plan;
use abc_store::{Handling, Rows};
use std::alloc::Global;
use std::marker::Model;

/// The rows of one node of a tree. Contracts see its plan and its number.
#[derive(Drop)]
pub(crate) struct TreeRows<'p> {
    plan: &'p Plan,
    node: u32,
}

impl<'p> Model for TreeRows<'p> {
    ghost use Rattle.abc_tree.specs.Seats.{Seat, IsSeat};

    ghost Value = { Seat };

    ghost view = { λ r. record { plan = r.plan.now; node = r.node } };

    ghost invariant = { λ r. IsSeat r.plan.now r.node };
}

impl<'p> TreeRows<'p> {
    /// The rows of a node of a tree.
    pub(crate) fn new(plan: &'p Plan, node: u32) -> TreeRows<'p>
        requires tree { plan.now.shape ≡ Tree }
        requires node { node < plan.now.nodes }
        ensures { result ≡ record { plan = plan.now; node = node } }
    {
        TreeRows { plan, node }
    }

    /// The link to the parent, from a node that is not the root.
    fn link_up(&self) -> u32
        requires { 0 < self.now.node }
        ensures number { result ≡ to_parent self.now.plan.agents self.now.node }
        ensures leaves { LeavesFrom self.now.plan self.now.node result }
        ensures small { result < 2 ^ 16 }
    {
        2 * self.plan.agents() + 2 * (self.node - 1)
    }

    /// Whether a link comes from the parent.
    fn is_from_parent(&self, link: u32) -> bool
        ensures { let parent = IsFromParent self.now.plan self.now.node link in
            MatchBool result parent (¬ parent) }
    {
        self.node > 0 && link == self.link_up() + 1
    }

    /// The route to an agent, where a packet that comes on a link comes from where it leads.
    fn route_back(&self, link: u32, agent: u32) -> Option<u32>
        ensures { let comes = ComesFrom self.now.plan self.now.node link agent in
            MatchOption result ((route : ℕ) → ¬ (comes route)) (λ route. comes route) }
    {
        if agent >= self.plan.agents() {
            return None;
        }
        let route = self.plan.route(self.node, agent);
        if !comes_back(self.plan, self.node, route, link) {
            return None;
        }
        Some(route)
    }

    /// The route to an agent, where a packet that comes on a link comes from the parent, and the
    /// route does not lead there.
    fn route_down(&self, link: u32, agent: u32) -> Option<u32>
        ensures { let goes = GoesDown self.now.plan self.now.node link agent in
            MatchOption result ((route : ℕ) → ¬ (goes route)) (λ route. goes route) }
    {
        if agent >= self.plan.agents() || !self.is_from_parent(link) {
            return None;
        }
        let route = self.plan.route(self.node, agent);
        if route == self.link_up() {
            return None;
        }
        Some(route)
    }

    /// The link to the parent, where there is one and a message did not come from there.
    fn link_to_parent(&self, came: u32) -> Option<u32>
        ensures links { option_to_list result ≡ parent_of self.now.plan self.now.node came }
        ensures leave { All (LeavesFrom self.now.plan self.now.node) (option_to_list result) }
    {
        if self.node == 0 {
            return None;
        }
        let up = self.link_up();
        if came == up + 1 {
            return None;
        }
        Some(up)
    }

    /// The link to the first child or to the second, where there is one and a message did not come
    /// from there.
    fn link_to_child(&self, place: u32, came: u32) -> Option<u32>
        requires first { 1 ≤ place }
        requires second { place ≤ 2 }
        ensures links { option_to_list result
            ≡ child_of self.now.plan (2 * self.now.node + place) came }
        ensures leave { All (LeavesFrom self.now.plan self.now.node) (option_to_list result) }
    {
        let nodes = self.plan.nodes();
        let child = 2 * self.node + place;
        if child >= nodes {
            return None;
        }
        let from_child = 2 * self.plan.agents() + 2 * (child - 1);
        if came == from_child {
            return None;
        }
        Some(from_child + 1)
    }
}

impl<'p, L: Drop> Rows<L> for TreeRows<'p> {
    ghost use Rattle.abc_network.specs.Trees.{tree_kind};
    ghost use Rattle.abc_tree.specs.Seats.{LeavesFrom};

    ghost kind = { λ r. tree_kind r.plan };

    ghost node = { λ r. r.node };

    ghost leaves = { λ r. LeavesFrom r.plan r.node };

    fn degree(&self) -> usize {
        self.plan.agents() as usize + 3
    }

    fn accepts(&self, link: u32, sender: u32) -> bool {
        sender < self.plan.agents() && ends_at(self.plan, self.node, link)
    }

    fn handling(&self, link: u32, packet: &Packet<L>) -> Handling {
        match packet {
            Packet::Request { agent } => {
                let agent = *agent;
                match self.route_back(link, agent) {
                    Some(back) if self.node == 0 => Handling::Answers { agent, back },
                    Some(_) => Handling::SendsOn { on: self.link_up() },
                    None => Handling::Nothing,
                }
            }
            Packet::Reply { agent, .. } => match self.route_down(link, *agent) {
                Some(on) => Handling::SendsOn { on },
                None => Handling::Nothing,
            },
            Packet::Message { .. } => Handling::Nothing,
        }
    }

    fn outs(&self, alloc: Global, _sender: u32, came: u32) -> Result<List<u32>, NoMemory> {
        let parent = self.link_to_parent(came);
        let first = self.link_to_child(1, came);
        let second = self.link_to_child(2, came);
        let mut links = links_to_homed(alloc, self.plan, self.node, came)?;
        add(&mut links, parent)?;
        add(&mut links, first)?;
        add(&mut links, second)?;
        Ok(links)
    }
}
