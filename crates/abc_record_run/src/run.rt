//! A program's network, from its start until it is quiet.
ghost use Rattle.std.specs.Prelude.{◌≡◌, ◌<◌, ◌≤◌, length, IfOk};
ghost use Rattle.abc_checks.specs.Facts.{IsChecked};
ghost use Rattle.abc_record_text.specs.LegalRecords.{IsLegalFor};
ghost use Rattle.abc_record_run.specs.RunRecords.{IsOfNetwork};

use crate::bodies::bodies_of;
use crate::network::run_bodies;
use abc_moves::Label;
use abc_net::Record;
use abc_number::MOST_LIMIT;
use abc_shape::{MOST_NODES, Plan, Shape};
use abc_term::Program;
use abc_value::NoMemory;
use std::alloc::Global;

/// Runs the program's components as a network of this shape until it is quiet. Its numbers go up to
/// `limit`, and its turns begin at `pick`. Each event is the one at place `order` modulo the number
/// of those that can be made. The record is a legal one of the program and of this network.
pub fn run_in_order(
    alloc: Global,
    program: &Program,
    shape: Shape,
    limit: u32,
    nodes: u32,
    pick: u64,
    order: u64,
) -> Result<Record<Label>, NoMemory>
    requires checked { IsChecked program.now }
    requires some { 0 < limit }
    requires bounded { limit ≤ MOST_LIMIT }
    requires a_node { 1 ≤ nodes }
    requires nodes { nodes ≤ MOST_NODES }
    requires pick { pick ≤ 4294967295 }
    ensures legal { IfOk result (λ ran. IsLegalFor program.now ran) }
    ensures network { IfOk result
        (λ ran. IsOfNetwork shape (length program.now.components) nodes limit pick ran) }
{
    let agents = program.components.len() as u32;
    let plan = Plan::new(alloc, shape, agents, nodes)?;
    let bodies = bodies_of(alloc, program)?;
    run_bodies(alloc, &plan, bodies, limit, pick, order)
}

/// The same, in which the first event that can be made is the next one.
pub fn run_network(
    alloc: Global,
    program: &Program,
    shape: Shape,
    limit: u32,
    nodes: u32,
    pick: u64,
) -> Result<Record<Label>, NoMemory>
    requires checked { IsChecked program.now }
    requires some { 0 < limit }
    requires bounded { limit ≤ MOST_LIMIT }
    requires a_node { 1 ≤ nodes }
    requires nodes { nodes ≤ MOST_NODES }
    requires pick { pick ≤ 4294967295 }
    ensures legal { IfOk result (λ ran. IsLegalFor program.now ran) }
    ensures network { IfOk result
        (λ ran. IsOfNetwork shape (length program.now.components) nodes limit pick ran) }
{
    run_in_order(alloc, program, shape, limit, nodes, pick, 0)
}
