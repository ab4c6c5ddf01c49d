//! Which link leads towards an agent.

ghost use Rattle.std.specs.Prelude.{◌≡◌, ℕ, ◌<◌, ◌≤◌, MatchOption};
ghost use Rattle.abc_shape.specs.declared.shape.Shape.TheVariants.{Ring, Tree};
ghost use Rattle.abc_shape.specs.Plans.{IsLayout, home};
ghost use Rattle.abc_shape.specs.Routes.{IsUnder, IsChild, IsRoute};

use crate::layout::Layout;
use crate::numbers::agent_number;
use crate::shape::Shape;

/// The child of a node in whose subtree another node is. None where there is no such child.
fn child_above(node: u32, below: u32) -> Option<u32>
    ensures { MatchOption
        result
        ((c : ℕ) → IsChild node c → ¬ (IsUnder c below))
        (λ c. IsChild node c × IsUnder c below × (c ≤ below)) }
{
    let mut at = below;
    while at > node {
        let parent = (at - 1) / 2;
        if parent == node {
            return Some(at);
        }
        at = parent;
    }
    None
}

/// The link from a node of a tree towards an agent.
fn tree_route(layout: Layout, node: u32, agent: u32) -> u32
    requires layout { IsLayout layout }
    requires tree { layout.shape ≡ Tree }
    requires node { node < layout.nodes }
    requires agent { agent < layout.agents }
    ensures { IsRoute layout node agent result }
{
    let home = agent % layout.nodes;
    if node == home {
        return agent_number(layout, agent, node) + 1;
    }
    let past = 2 * layout.agents;
    match child_above(node, home) {
        Some(child) => past + 2 * (child - 1) + 1,
        None => past + 2 * (node - 1),
    }
}

/// The link from a node towards an agent.
pub fn route(layout: Layout, node: u32, agent: u32) -> u32
    requires layout { IsLayout layout }
    requires node { node < layout.nodes }
    requires agent { agent < layout.agents }
    requires home_in_a_ring { layout.shape ≡ Ring → node ≡ home layout agent }
    ensures { IsRoute layout node agent result }
{
    match layout.shape {
        Shape::Cluster | Shape::Ring => agent_number(layout, agent, node) + 1,
        Shape::Tree => tree_route(layout, node, agent),
    }
}
