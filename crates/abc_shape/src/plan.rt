ghost use Rattle.std.specs.Prelude.{◌≡◌, ℕ, ◌<◌, ◌≤◌, IfOk, MatchOption};
ghost use Rattle.abc_shape.specs.declared.shape.Shape.TheVariants.{Ring};
ghost use Rattle.abc_shape.specs.Plans.{IsLayout, IsLink, ListsLinks, home, successor, parent, layout_of};
ghost use Rattle.abc_shape.specs.Routes.{IsRoute};

use crate::layout::{Layout, LinkEnds};
use crate::links::{count_links, ends_of};
use crate::numbers::number_between;
use crate::routes;
use crate::shape::Shape;
use abc_value::{List, NoMemory};
use std::alloc::Global;
use std::marker::Model;

/// The plan of a network: its shape, its agents and nodes, and the links between them.
///
/// Contracts see its shape and its numbers, which determine all else.
#[derive(Debug, Drop)]
pub struct Plan {
    layout: Layout,
    links: List<LinkEnds>,
}

impl Model for Plan {
    ghost use Rattle.abc_shape.specs.declared.layout.Layout.{Layout};

    ghost Value = { Layout };

    ghost use Rattle.abc_shape.specs.Plans.{IsPlan};

    ghost view = { λ p. p.layout };

    ghost invariant = { λ p. IsPlan p.layout p.links };
}

/// The links of a layout.
fn list_links(alloc: Global, layout: Layout) -> Result<List<LinkEnds>, NoMemory>
    requires { IsLayout layout }
    ensures { IfOk result (λ links. ListsLinks layout links) }
{
    let count = count_links(layout);
    let mut links = List::with_capacity(alloc, count as usize)?;
    for number in 0..count {
        links.push(ends_of(layout, number))?;
    }
    Ok(links)
}

impl Plan {
    /// The plan of this shape with so many agents and nodes.
    ///
    /// There are 1 to 256 agents and 1 to 64 nodes.
    pub fn new(alloc: Global, shape: Shape, agents: u32, nodes: u32) -> Result<Plan, NoMemory>
        requires { IsLayout (layout_of shape agents nodes) }
        ensures { IfOk result (λ p. p ≡ layout_of shape agents nodes) }
    {
        let layout = Layout {
            shape,
            agents,
            nodes,
        };
        let links = list_links(alloc, layout)?;
        Ok(Plan { layout, links })
    }

    /// How the nodes are linked.
    pub fn shape(&self) -> Shape
        ensures { result ≡ self.now.shape }
    {
        self.layout.shape
    }

    /// The number of agents.
    pub fn agents(&self) -> u32
        ensures number { result ≡ self.now.agents }
        ensures limits { IsLayout self.now }
    {
        self.layout.agents
    }

    /// The number of nodes.
    pub fn nodes(&self) -> u32
        ensures number { result ≡ self.now.nodes }
        ensures limits { IsLayout self.now }
    {
        self.layout.nodes
    }

    /// The ends of each link, by its number.
    pub fn links(&self) -> &[LinkEnds]
        ensures { ListsLinks self.now result.now }
    {
        self.links.as_slice()
    }

    /// The node to which the agent is linked in a ring and in a tree; in a cluster a number that no rule
    /// uses.
    pub fn home(&self, agent: u32) -> u32
        ensures home { result ≡ home self.now agent }
        ensures there { result < self.now.nodes }
    {
        agent % self.layout.nodes
    }

    /// The next node in a ring, the first after the last.
    pub fn successor(&self, node: u32) -> u32
        ensures next { result ≡ successor self.now node }
        ensures there { result < self.now.nodes }
    {
        let next = u64::from(node) + 1;
        (next % u64::from(self.layout.nodes)) as u32
    }

    /// The parent of a node in a tree. None for the root, which is node 0, and outside trees.
    pub fn parent(&self, node: u32) -> Option<u32>
        ensures { result ≡ parent self.now node }
    {
        match self.layout.shape {
            Shape::Tree if node > 0 => Some((node - 1) / 2),
            Shape::Cluster | Shape::Ring | Shape::Tree => None,
        }
    }

    /// The number of the link with these ends. None where no link has them.
    pub fn link(&self, from: u32, to: u32) -> Option<u32>
        ensures { MatchOption
            result
            ((number : ℕ) → ¬ (IsLink self.now number from to))
            (λ number. IsLink self.now number from to) }
    {
        let number = number_between(self.layout, from, to)?;
        let ends = self.links.get(number as usize)?;
        if *ends == (LinkEnds { from, to }) {
            Some(number)
        } else {
            None
        }
    }

    /// The link from a node towards an agent. In a ring the node is the agent's home.
    pub fn route(&self, node: u32, agent: u32) -> u32
        requires node { node < self.now.nodes }
        requires agent { agent < self.now.agents }
        requires home_in_a_ring { self.now.shape ≡ Ring → node ≡ home self.now agent }
        ensures { IsRoute self.now node agent result }
    {
        routes::route(self.layout, node, agent)
    }
}

fn crosses_threads<T: Send + Sync>() {}

/// Plans may go to another thread and be shared.
fn plans_cross_threads() {
    crosses_threads::<Plan>();
    crosses_threads::<LinkEnds>();
}
