//! A network of any bodies, from its start until it is quiet.
ghost use Rattle.std.specs.Prelude.{◌≡◌, ◌<◌, ◌≤◌, length, IfOk};
ghost use Rattle.abc_network_laws.specs.Kept.{Each};
ghost use Rattle.abc_net.specs.Records.{logs_of};
ghost use Rattle.abc_record_text.specs.LegalRecords.{IsLegalBy};
ghost use Rattle.abc_record_run.specs.RunRecords.{IsOfNetwork};

use abc_body::Body;
use abc_net::Record;
use abc_number::MOST_LIMIT;
use abc_shape::Plan;
use abc_value::NoMemory;
use abc_world::World;
use std::alloc::Global;

/// Runs a network of this plan with these bodies until it is quiet. Its numbers go up to `limit`, and
/// its turns begin at `pick`. Each event is the one at place `order` modulo the number of those that
/// can be made. The record is a legal one for these bodies and of this network.
pub fn run_bodies<B: Body>(
    alloc: Global,
    plan: &Plan,
    bodies: Vec<B>,
    limit: u32,
    pick: u64,
    order: u64,
) -> Result<Record<B::Label>, NoMemory>
    requires many { length bodies.items ≡ plan.now.agents }
    requires sound { Each B.meaning.sound bodies.items }
    requires some { 0 < limit }
    requires bounded { limit ≤ MOST_LIMIT }
    requires pick { pick ≤ 4294967295 }
    ensures legal { let p = plan.now in IfOk result (λ ran.
        IsLegalBy B.meaning p.shape p.agents p.nodes limit pick bodies.items (logs_of ran)) }
    ensures network { let p = plan.now in
        IfOk result (λ ran. IsOfNetwork p.shape p.agents p.nodes limit pick ran) }
{
    let mut world = World::start(alloc, plan, bodies, limit, pick)?;
    world.run_to_quiet(order)?;
    Ok(world.into_record())
}
