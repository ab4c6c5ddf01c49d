//! Which links end at each actor.
ghost use Rattle.std.specs.Prelude.{◌≡◌, ◌+◌, ◌<◌, [], ◌∷◌, ◌++◌, length, replicate, slice_index_or, slice_set, IfOk, OnOk};
ghost use Rattle.abc_world.specs.InLinks.{AreInLinks};

use abc_packet::{List, NoMemory};
use abc_shape::Plan;
use std::alloc::Global;

/// So many empty lists.
fn empty_lists(alloc: Global, count: u32) -> Result<Vec<List<u32>>, NoMemory>
    ensures { IfOk result (λ lists. lists.items ≡ replicate count []) }
{
    let mut lists = Vec::with_capacity(alloc, count as usize)?;
    'filling: for _ in 0..count {
        lists.push(List::new(alloc))?;
    }
    Ok(lists)
}

/// For each actor of a plan, agents first, the links that end at it, in order.
pub(crate) fn links_by_end(alloc: Global, plan: &Plan) -> Result<Vec<List<u32>>, NoMemory>
    ensures { IfOk result (λ lists. AreInLinks plan.now lists.items) }
{
    let links = plan.links();
    let mut lists = empty_lists(alloc, plan.agents() + plan.nodes())?;
    'linking: for link in 0..links.len() {
        let to = links[link].to as usize;
        lists[to].push(link as u32)?;
    }
    Ok(lists)
}
