use crate::walk::{Walk, arrows_of};
use abc_value::{List, NoMemory};
use std::alloc::Global;

/// As many nodes without arrows.
fn bare(alloc: Global, count: usize) -> Result<Vec<List<usize>>, NoMemory> {
    let mut graph = Vec::new(alloc);
    for _ in 0..count {
        graph.push(List::new(alloc))?;
    }
    Ok(graph)
}

/// Adds an arrow to the node from each of those to which it has one.
fn turn_arrows(
    graph: &[List<usize>],
    node: usize,
    turned: &mut [List<usize>],
) -> Result<(), NoMemory> {
    for next in arrows_of(graph, node) {
        if let Some(arrows) = turned.get_mut(*next) {
            arrows.push(node)?;
        }
    }
    Ok(())
}

/// The graph with each arrow turned round.
fn turned(alloc: Global, graph: &[List<usize>]) -> Result<Vec<List<usize>>, NoMemory> {
    let mut turned = bare(alloc, graph.len())?;
    for node in 0..graph.len() {
        turn_arrows(graph, node, &mut turned)?;
    }
    Ok(turned)
}

/// A level for each node of a graph, and the nodes in an order that goes up the levels.
///
/// Nodes that lead to each other have one level, and an arrow between two levels leads to the lower one. So
/// a node that leads to itself has an arrow within its level, and no other node has one.
/// The order has each level twice: first with the node from which the walk met the others last, and each
/// node behind those that it met by them; then with that node first, and each node behind one that it has an
/// arrow to. So what each node takes over from those that it leads to has then come to all of a level.
/// No contract says this of levels and order: whoever takes them proves what it needs.
#[derive(Drop)]
pub struct Order {
    pub levels: Vec<usize>,
    pub turns: Vec<usize>,
}

/// The nodes by their levels; those of one level as they stand.
fn by_level(alloc: Global, levels: &[usize], nodes: &[usize]) -> Result<Vec<usize>, NoMemory> {
    let mut keys = Vec::new(alloc);
    for (place, node) in nodes.iter().enumerate() {
        let level = levels.get(*node).copied().unwrap_or(0);
        keys.push((level, place, *node))?;
    }
    keys.sort_unstable();
    let turns = keys.iter().map(|key| key.2).collect(alloc)?;
    Ok(turns)
}

impl Order {
    /// By Kosaraju's two walks: against the arrows, and then along them from the nodes that were left last.
    pub fn of(alloc: Global, graph: &[List<usize>]) -> Result<Order, NoMemory> {
        let all: Vec<usize> = (0..graph.len()).collect(alloc)?;
        let against = turned(alloc, graph)?;
        let mut roots = Walk::of(alloc, &against, &all)?.left;
        roots.reverse();
        let walk = Walk::of(alloc, graph, &roots)?;
        let mut twice = walk.left;
        twice.extend_from_slice(&roots)?;
        let turns = by_level(alloc, &walk.levels, &twice)?;
        Ok(Order {
            levels: walk.levels,
            turns,
        })
    }
}
