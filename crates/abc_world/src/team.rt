//! The agents of a network at its start.
ghost use Rattle.std.specs.Prelude.{◌≡◌, ◌≤◌, ◌<◌, length, map, IfOk};
ghost use Rattle.abc_network.specs.Networks.{starting};
ghost use Rattle.abc_network_laws.specs.Kept.{Each};
ghost use Rattle.abc_world.specs.Teams.{AreAgents, actor_in};

use abc_agent::Agent;
use abc_body::Body;
use abc_packet::NoMemory;
use abc_shape::Plan;
use std::alloc::Global;
use std::collections::VecDeque;

/// The agents of a network of this plan, one for each body, at the start.
pub(crate) fn team<'p, B: Body>(
    alloc: Global,
    plan: &'p Plan,
    bodies: Vec<B>,
    pick: u64,
) -> Result<Vec<Agent<'p, B>>, NoMemory>
    requires many { length bodies.items ≡ plan.now.agents }
    requires pick { pick ≤ 4294967295 }
    requires sound { Each B.meaning.sound bodies.items }
    ensures agents { IfOk result (λ agents. AreAgents plan.now pick agents.items) }
    ensures start { IfOk result (λ agents.
        map actor_in agents.items ≡ map starting bodies.items) }
{
    let _limits = plan.agents();
    let mut agents = Vec::with_capacity(alloc, bodies.len())?;
    let mut left = VecDeque::from(bodies);
    'seating: while let Some(body) = left.pop_front() {
        let number = agents.len() as u32;
        agents.push(Agent::new(alloc, body, number, plan, pick))?;
    }
    Ok(agents)
}
