//! How far a network is, and whether it can go on.
ghost use Rattle.std.specs.Prelude.{◌≡◌, ◌<◌, ℕ, length, map, MatchBool, Some, slice_get};
ghost use Rattle.abc_shape.specs.declared.layout.Layout.{Layout};
ghost use Rattle.abc_shape.specs.Plans.{IsLayout};
ghost use Rattle.abc_network.specs.Quiets.{AgentRests};
ghost use Rattle.abc_world.specs.Fronts.{IsLeastFront, AllAgentsRest, AllNodesRest};
ghost use Rattle.abc_world.specs.Listing.{IsStillIn};
ghost use Rattle.abc_world.specs.Teams.{actor_in};
ghost use Rattle.abc_world.specs.Runnings.{node_in};

use crate::network::Network;
use crate::node::Node;
use abc_agent::Agent;
use abc_body::Body;

/// Whether an agent can't ask, take or turn.
fn agent_rests<B: Body>(agent: &Agent<'_, B>) -> bool
    ensures { MatchBool result (AgentRests B.meaning agent.now.actor.state)
        (¬ AgentRests B.meaning agent.now.actor.state) }
{
    !agent.can_ask() && !agent.can_take() && !agent.can_turn()
}

/// Whether no agent can ask, take or turn.
fn agents_rest<B: Body>(agents: &[Agent<'_, B>]) -> bool
    ensures { MatchBool result (AllAgentsRest B.meaning (map actor_in agents.now))
        (¬ AllAgentsRest B.meaning (map actor_in agents.now)) }
{
    'asking: for i in 0..agents.len() {
        if !agent_rests(&agents[i]) {
            return false;
        }
    }
    true
}

/// Whether no node of a plan can pass a message on.
fn nodes_rest<L: Drop, M: Node<L>>(nodes: &[M]) -> bool
    ensures { (p : Layout)
        → ((k : ℕ) (n : M) → slice_get nodes.now k ≡ Some n → (M.node n).plan ≡ p)
        → MatchBool result (AllNodesRest (M.machine p) (map node_in (map M.node nodes.now)))
        (¬ AllNodesRest (M.machine p) (map node_in (map M.node nodes.now))) }
{
    'asking: for k in 0..nodes.len() {
        if nodes[k].can_pass() {
            return false;
        }
    }
    true
}

impl<'p, B: Body, M: Node<B::Label>> Network<'p, B, M> {
    /// The least of all agents' fronts.
    pub(crate) fn least_front(&self) -> u32
        ensures { IsLeastFront self.now result }
    {
        let _agents = self.plan.agents();
        let mut least = self.agents[0].front();
        'comparing: for i in 0..self.agents.len() {
            least = least.min(self.agents[i].front());
        }
        least
    }

    /// Whether nothing is on a link and no actor can do anything. It takes no memory.
    pub(crate) fn is_still(&self) -> bool
        ensures { MatchBool result (IsStillIn B.meaning M.machine M.blank self.now)
            (¬ IsStillIn B.meaning M.machine M.blank self.now) }
    {
        if !self.links.are_empty() {
            return false;
        }
        if !agents_rest(self.agents.as_slice()) {
            return false;
        }
        nodes_rest(self.nodes.as_slice())
    }
}
