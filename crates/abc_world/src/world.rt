//! A network of any shape.
ghost use Rattle.std.specs.Prelude.{◌≡◌, ◌<◌, ◌≤◌, length, MatchBool, IfOk, OnOk, OnErr};
ghost use Rattle.abc_network_laws.specs.Kept.{Each};
ghost use Rattle.abc_net.specs.Records as Records;
ghost use Rattle.abc_world.specs.Worlds.{IsAtStart, SameWorld, WorldAnswers, WorldRunsTo, IsStillWorld, IsQuietWorld, IsLeastFrontIn, IsWorldRecord, WorldLeavesLegal};

use crate::crew::{cluster_nodes, ring_nodes, tree_nodes};
use crate::event::{Event, Moved};
use crate::laws::{clusters_have_laws, rings_have_laws, trees_have_laws};
use crate::started::Started;
use abc_body::Body;
use abc_cluster::ClusterNode;
use abc_net::Record;
use abc_number::MOST_LIMIT;
use abc_packet::NoMemory;
use abc_ring::RingNode;
use abc_shape::{Plan, Shape};
use abc_tree::TreeNode;
use std::alloc::Global;

/// A network on one thread, of any of the three shapes, and the events that it makes.
#[derive(Drop)]
pub enum World<'p, B: Body> {
    /// A cluster.
    OfCluster(Started<'p, B, ClusterNode<'p, B::Label>>),
    /// A ring.
    OfRing(Started<'p, B, RingNode<'p, B::Label>>),
    /// A tree.
    OfTree(Started<'p, B, TreeNode<'p, B::Label>>),
}

impl<'p, B: Body> World<'p, B> {
    /// The network of this plan with these bodies, at its start. Its numbers go up to `limit`, and
    /// its turns begin at `pick`.
    pub fn start(
        alloc: Global,
        plan: &'p Plan,
        bodies: Vec<B>,
        limit: u32,
        pick: u64,
    ) -> Result<World<'p, B>, NoMemory>
        requires many { length bodies.items ≡ plan.now.agents }
        requires sound { Each B.meaning.sound bodies.items }
        requires some { 0 < limit }
        requires bounded { limit ≤ MOST_LIMIT }
        requires pick { pick ≤ 4294967295 }
        ensures { IfOk result (λ w. IsAtStart plan.now limit pick bodies.items w) }
    {
        match plan.shape() {
            Shape::Cluster => cluster_world(alloc, plan, bodies, limit, pick),
            Shape::Ring => ring_world(alloc, plan, bodies, limit, pick),
            Shape::Tree => tree_world(alloc, plan, bodies, limit, pick),
        }
    }

    /// Makes an event, where the network has it; `NotEnabled`, and nothing changes, exactly where
    /// it has none. Each draw of a node is the next number, and Closed exactly where all are drawn.
    /// After NoMemory all is as before.
    pub fn step(&mut self, event: &Event) -> Result<Moved, NoMemory>
        ensures same { SameWorld self.old self.new }
        ensures answers { IfOk result (λ r.
            WorldAnswers B.meaning event.now.actor event.now.kind self.old r self.new) }
        ensures err { OnErr result (self.new ≡ self.old) }
    {
        match self {
            World::OfCluster(started) => started.step(event),
            World::OfRing(started) => started.step(event),
            World::OfTree(started) => started.step(event),
        }
    }

    /// Makes events until none can be made, each time the one at place `order` modulo their number,
    /// in order of actor and then of what it does. After NoMemory the events made stand whole.
    pub fn run_to_quiet(&mut self, order: u64) -> Result<(), NoMemory>
        ensures same { SameWorld self.old self.new }
        ensures ran { WorldRunsTo B.meaning self.old self.new }
        ensures still { OnOk result (IsStillWorld B.meaning self.new) }
    {
        match self {
            World::OfCluster(started) => started.run_to_quiet(order),
            World::OfRing(started) => started.run_to_quiet(order),
            World::OfTree(started) => started.run_to_quiet(order),
        }
    }

    /// The least of all agents' fronts: up to it, every agent has moved.
    pub fn least_front(&self) -> u32
        ensures { IsLeastFrontIn self.now result }
    {
        match self {
            World::OfCluster(started) => started.least_front(),
            World::OfRing(started) => started.least_front(),
            World::OfTree(started) => started.least_front(),
        }
    }

    /// Whether it is quiet: nothing is on a link, no message is stored, and no actor can do anything.
    pub fn is_quiet(&self) -> bool
        ensures { MatchBool result (IsQuietWorld B.meaning self.now) (¬ IsQuietWorld B.meaning self.now) }
    {
        match self {
            World::OfCluster(started) => started.is_quiet(),
            World::OfRing(started) => started.is_quiet(),
            World::OfTree(started) => started.is_quiet(),
        }
    }

    /// What is left of it: the record with the plan's shape and numbers, the limit, the pick, and
    /// the log of each actor. It takes no memory. Where the network is still, and came from its
    /// start with these bodies, the record is legal.
    pub fn into_record(self) -> Record<B::Label>
        ensures record { IsWorldRecord self.entry result }
        ensures legal { WorldLeavesLegal B.meaning self.entry (Records.logs_of result) }
    {
        match self {
            World::OfCluster(started) => started.into_record(),
            World::OfRing(started) => started.into_record(),
            World::OfTree(started) => started.into_record(),
        }
    }
}

/// A cluster at its start,
fn cluster_world<'p, B: Body>(
    alloc: Global,
    plan: &'p Plan,
    bodies: Vec<B>,
    limit: u32,
    pick: u64,
) -> Result<World<'p, B>, NoMemory>
    requires shape { plan.now.shape ≡ Shape.Cluster }
    requires many { length bodies.items ≡ plan.now.agents }
    requires sound { Each B.meaning.sound bodies.items }
    requires some { 0 < limit }
    requires bounded { limit ≤ MOST_LIMIT }
    requires pick { pick ≤ 4294967295 }
    ensures { IfOk result (λ w. IsAtStart plan.now limit pick bodies.items w) }
{
    let _limits = plan.agents();
    clusters_have_laws::<B>();
    let nodes = cluster_nodes(alloc, plan)?;
    let started = Started::start(alloc, plan, bodies, nodes, limit, pick)?;
    Ok(World::OfCluster(started))
}

/// a ring
fn ring_world<'p, B: Body>(
    alloc: Global,
    plan: &'p Plan,
    bodies: Vec<B>,
    limit: u32,
    pick: u64,
) -> Result<World<'p, B>, NoMemory>
    requires shape { plan.now.shape ≡ Shape.Ring }
    requires many { length bodies.items ≡ plan.now.agents }
    requires sound { Each B.meaning.sound bodies.items }
    requires some { 0 < limit }
    requires bounded { limit ≤ MOST_LIMIT }
    requires pick { pick ≤ 4294967295 }
    ensures { IfOk result (λ w. IsAtStart plan.now limit pick bodies.items w) }
{
    let _limits = plan.agents();
    rings_have_laws::<B>();
    let nodes = ring_nodes(alloc, plan)?;
    let started = Started::start(alloc, plan, bodies, nodes, limit, pick)?;
    Ok(World::OfRing(started))
}

/// and a tree.
fn tree_world<'p, B: Body>(
    alloc: Global,
    plan: &'p Plan,
    bodies: Vec<B>,
    limit: u32,
    pick: u64,
) -> Result<World<'p, B>, NoMemory>
    requires shape { plan.now.shape ≡ Shape.Tree }
    requires many { length bodies.items ≡ plan.now.agents }
    requires sound { Each B.meaning.sound bodies.items }
    requires some { 0 < limit }
    requires bounded { limit ≤ MOST_LIMIT }
    requires pick { pick ≤ 4294967295 }
    ensures { IfOk result (λ w. IsAtStart plan.now limit pick bodies.items w) }
{
    let _limits = plan.agents();
    trees_have_laws::<B>();
    let nodes = tree_nodes(alloc, plan)?;
    let started = Started::start(alloc, plan, bodies, nodes, limit, pick)?;
    Ok(World::OfTree(started))
}
