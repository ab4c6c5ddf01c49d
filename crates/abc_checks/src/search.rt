ghost use Rattle.std.specs.Prelude.{◌≡◌, false, [], ◌↔◌, slice_index_or, IfOk, OnOk, IsTrue};
ghost use Rattle.abc_checks.specs.Graphs.{Path, search_of, mark, mark_all};

use crate::walk::arrows_of;
use abc_value::{List, NoMemory};
use std::alloc::Global;

/// Which nodes of a graph are marked, and the marked ones whose arrows were not followed yet.
#[derive(Drop)]
struct Search {
    marked: Vec<bool>,
    waiting: Vec<usize>,
}

impl Search {
    /// Whether the node has a mark.
    fn has_marked(&self, node: usize) -> bool
        ensures { result ≡ slice_index_or (search_of self.now).marked node false }
    {
        match self.marked.get(node) {
            Some(marked) => *marked,
            None => false,
        }
    }

    /// Marks the node, and lets it wait, where it has no mark.
    fn mark(&mut self, node: usize) -> Result<(), NoMemory>
        ensures { OnOk result (search_of self.new ≡ mark node (search_of self.old)) }
    {
        if let Some(false) = self.marked.get(node) {
            self.waiting.push(node)?;
            self.marked[node] = true;
        }
        Ok(())
    }

    /// Marks each of the nodes.
    fn mark_all(&mut self, nodes: &[usize]) -> Result<(), NoMemory>
        ensures { OnOk result (search_of self.new ≡ mark_all nodes.now (search_of self.old)) }
    {
        for node in nodes {
            self.mark(*node)?;
        }
        Ok(())
    }
}

/// Whether a way of one or more arrows leads from the node to itself.
pub fn reaches_itself(alloc: Global, graph: &[List<usize>], node: usize) -> Result<bool, NoMemory>
    ensures { IfOk result (λ b. IsTrue b ↔ Path graph.now node node) }
{
    let mut search = Search {
        marked: vec![in alloc; false; graph.len()]?,
        waiting: Vec::new(alloc),
    };
    search.mark_all(arrows_of(graph, node))?;
    while let Some(next) = search.waiting.pop() {
        search.mark_all(arrows_of(graph, next))?;
    }
    Ok(search.has_marked(node))
}
