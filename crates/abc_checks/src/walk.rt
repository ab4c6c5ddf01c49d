ghost use Rattle.std.specs.Prelude.{◌≡◌, [], slice_index_or};

use abc_value::{List, NoMemory};
use std::alloc::Global;

/// The nodes to which the node has arrows.
pub fn arrows_of(graph: &[List<usize>], node: usize) -> &[usize]
    ensures { result.now ≡ slice_index_or graph.now node [] }
{
    match graph.get(node) {
        Some(arrows) => arrows.as_slice(),
        None => &[],
    }
}

/// A walk along the arrows of a graph, depth first.
#[derive(Drop)]
pub struct Walk {
    /// The level that each node was given as it was met; 0 where it wasn't.
    pub levels: Vec<usize>,
    /// The nodes that were left, since each of their arrows had been followed, in that order.
    pub left: Vec<usize>,
    /// The way to the node that the walk has come to, with how many arrows of each were followed.
    way: Vec<(usize, usize)>,
}

impl Walk {
    /// Goes on to the node, where it wasn't met before, and gives it the level.
    fn meet(&mut self, node: usize, level: usize) -> Result<(), NoMemory> {
        if let Some(0) = self.levels.get(node) {
            self.way.push((node, 0))?;
            self.levels[node] = level;
        }
        Ok(())
    }

    /// Follows one more arrow of the node that the walk has come to, or leaves it where there is none, and
    /// says whether there was such a node.
    fn step(&mut self, graph: &[List<usize>], level: usize) -> Result<bool, NoMemory> {
        let Some((node, followed)) = self.way.pop() else {
            return Ok(false);
        };
        match arrows_of(graph, node).get(followed) {
            Some(next) => {
                self.way.push((node, followed.saturating_add(1)))?;
                self.meet(*next, level)?;
            }
            None => self.left.push(node)?,
        }
        Ok(true)
    }

    /// Meets what the root leads to. Each step follows an arrow or leaves a node, so it ends long before the
    /// range does.
    fn go_from(
        &mut self,
        graph: &[List<usize>],
        root: usize,
        level: usize,
    ) -> Result<(), NoMemory> {
        self.meet(root, level)?;
        for _ in 0..usize::MAX {
            if !self.step(graph, level)? {
                break;
            }
        }
        Ok(())
    }

    /// Walks from each of the roots in turn. The level of what is met is the number of the root, from 1.
    pub fn of(alloc: Global, graph: &[List<usize>], roots: &[usize]) -> Result<Walk, NoMemory> {
        let mut walk = Walk {
            levels: vec![in alloc; 0; graph.len()]?,
            left: Vec::new(alloc),
            way: Vec::new(alloc),
        };
        for (number, root) in roots.iter().enumerate() {
            walk.go_from(graph, *root, number.saturating_add(1))?;
        }
        Ok(walk)
    }
}
