//! The links on which an agent's packets go.
ghost use Rattle.std.specs.Prelude.{◌≡◌, ◌<◌, ◌^◌};
ghost use Rattle.abc_shape.specs.Plans.{IsLayout};
ghost use Rattle.abc_agent.specs.Ways.{way_of};

use abc_shape::{Plan, Shape};

/// The link of this agent's next packet, when it has sent so many.
pub(crate) fn way(plan: &Plan, agent: u32, packets: u64) -> u32
    requires agent { agent < plan.now.agents }
    requires packets { packets < 2 ^ 63 }
    ensures way { result ≡ way_of plan.now agent packets }
    ensures limits { IsLayout plan.now }
{
    let agents = plan.agents();
    let nodes = plan.nodes();
    match plan.shape() {
        Shape::Cluster => {
            let node = (u64::from(agent) + packets) % u64::from(nodes);
            2 * (agent * nodes + node as u32)
        }
        Shape::Ring | Shape::Tree => 2 * agent,
    }
}

/// How many links lead from an agent.
pub(crate) fn links_out(plan: &Plan) -> usize
    ensures { 0 < result }
{
    match plan.shape() {
        Shape::Cluster => plan.nodes() as usize,
        Shape::Ring | Shape::Tree => 1,
    }
}
