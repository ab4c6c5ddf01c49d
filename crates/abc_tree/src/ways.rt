//! The ends of links, and the links of a node's neighbours.
ghost use Rattle.std.specs.Prelude.{◌≡◌, ◌<◌, ◌++◌, option_to_list, All, MatchBool, IfOk, OnOk};
ghost use Rattle.std.specs.Bool.{OnTrue};
ghost use Rattle.abc_shape.specs.declared.shape.Shape.TheVariants.{Tree};
ghost use Rattle.abc_shape.specs.declared.layout.TheConstants.{MOST_AGENTS};
ghost use Rattle.abc_shape.specs.Plans.{home};
ghost use Rattle.abc_network.specs.Trees.{ComesBack, agents_of};
ghost use Rattle.abc_tree.specs.Seats.{LeavesFrom, EndsAt, goes_to};

use abc_packet::{List, NoMemory};
use abc_shape::Plan;
use std::alloc::Global;

/// Whether a link comes to a node.
pub(crate) fn ends_at(plan: &Plan, node: u32, link: u32) -> bool
    requires { node < plan.now.nodes }
    ensures { let ends = EndsAt plan.now node link in MatchBool result ends (¬ ends) }
{
    let here = plan.agents() + node;
    match plan.links().get(link as usize) {
        Some(ends) => ends.to == here,
        None => false,
    }
}

/// Whether a link comes to a node from where another leads from it.
pub(crate) fn comes_back(plan: &Plan, node: u32, out: u32, link: u32) -> bool
    requires { node < plan.now.nodes }
    ensures { let back = ComesBack plan.now node out link in MatchBool result back (¬ back) }
{
    let here = plan.agents() + node;
    let links = plan.links();
    match (links.get(out as usize), links.get(link as usize)) {
        (Some(there), Some(back)) => {
            there.from == here && back.to == here && back.from == there.to
        }
        _ => false,
    }
}

/// Whether a message goes on from a node to this agent: it is homed there, and the message did not
/// come from it.
fn goes_on_to(plan: &Plan, node: u32, came: u32, agent: u32) -> bool
    requires { agent < MOST_AGENTS }
    ensures value { result ≡ goes_to plan.now node came agent }
    ensures homed { OnTrue result (home plan.now agent ≡ node) }
{
    plan.home(agent) == node && came != 2 * agent
}

/// The links to the agents homed at a node, but none to the one from which a message came.
pub(crate) fn links_to_homed(
    alloc: Global,
    plan: &Plan,
    node: u32,
    came: u32,
) -> Result<List<u32>, NoMemory>
    requires { plan.now.shape ≡ Tree }
    ensures links { IfOk result (λ ls. ls ≡ agents_of plan.now node came 0 plan.now.agents) }
    ensures leave { IfOk result (λ ls. All (LeavesFrom plan.now node) ls) }
{
    let agents = plan.agents();
    let mut links = List::new(alloc);
    'looking: for agent in 0..agents {
        if goes_on_to(plan, node, came, agent) {
            links.push(2 * agent + 1)?;
        }
    }
    Ok(links)
}

/// Appends a link, where there is one.
pub(crate) fn add(links: &mut List<u32>, link: Option<u32>) -> Result<(), NoMemory>
    ensures { OnOk result (links.new ≡ links.old ++ option_to_list link) }
{
    match link {
        Some(link) => links.push(link),
        None => Ok(()),
    }
}
