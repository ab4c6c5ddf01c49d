//! From the ends of a link to its number.

ghost use Rattle.std.specs.Prelude.{◌≡◌, ◌≢◌, ℕ, ◌+◌, ◌^◌, ◌<◌, MatchOption};
ghost use Rattle.abc_shape.specs.declared.shape.Shape.TheVariants.{Cluster};
ghost use Rattle.abc_shape.specs.Plans.{IsLayout, IsLink, actor_of, home};

use crate::layout::Layout;
use crate::shape::Shape;

/// The number that the link of an agent to a node has, where there is one. The link back has the next.
pub fn agent_number(layout: Layout, agent: u32, node: u32) -> u32
    requires layout { IsLayout layout }
    requires agent { agent < layout.agents }
    requires node { node < layout.nodes }
    ensures up { (layout.shape ≢ Cluster → node ≡ home layout agent) →
        IsLink layout result agent (actor_of layout node) }
    ensures down { (layout.shape ≢ Cluster → node ≡ home layout agent) →
        IsLink layout (result + 1) (actor_of layout node) agent }
    ensures no_other_up { (number : ℕ) → IsLink layout number agent (actor_of layout node) → number ≡ result }
    ensures no_other_down { (number : ℕ) → IsLink layout number (actor_of layout node) agent → number ≡ result + 1 }
    ensures small { result < 2 ^ 16 }
{
    match layout.shape {
        Shape::Cluster => 2 * (agent * layout.nodes + node),
        Shape::Ring | Shape::Tree => 2 * agent,
    }
}

/// The one number that a link from a node to a node can have. None where no link leads so.
fn node_number(layout: Layout, from: u32, to: u32) -> Option<u32>
    requires layout { IsLayout layout }
    requires from { from < layout.nodes }
    requires to { to < layout.nodes }
    ensures { MatchOption
        result
        ((number : ℕ) → ¬ (IsLink layout number (actor_of layout from) (actor_of layout to)))
        (λ n. (number : ℕ) → IsLink layout number (actor_of layout from) (actor_of layout to) → number ≡ n) }
{
    let past = 2 * layout.agents;
    match layout.shape {
        Shape::Ring => Some(past + from),
        Shape::Tree if to < from => Some(past + 2 * (from - 1)),
        Shape::Tree if from < to => Some(past + 2 * (to - 1) + 1),
        Shape::Cluster | Shape::Tree => None,
    }
}

/// The one number that a link with these ends can have. None where no link has them: an actor is not
/// there, or both are agents.
pub fn number_between(layout: Layout, from: u32, to: u32) -> Option<u32>
    requires { IsLayout layout }
    ensures { MatchOption
        result
        ((number : ℕ) → ¬ (IsLink layout number from to))
        (λ n. (number : ℕ) → IsLink layout number from to → number ≡ n) }
{
    let agents = layout.agents;
    let actors = agents + layout.nodes;
    if from >= actors || to >= actors {
        return None;
    }
    match (from < agents, to < agents) {
        (true, true) => None,
        (true, false) => Some(agent_number(layout, from, to - agents)),
        (false, true) => Some(agent_number(layout, to, from - agents) + 1),
        (false, false) => node_number(layout, from - agents, to - agents),
    }
}
