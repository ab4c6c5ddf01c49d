ghost use Rattle.std.specs.Prelude.{◌≡◌, ℕ, [], true, nat_lt, slice_index_or};
ghost use Rattle.std.specs.List.{list_any};
ghost use Rattle.abc_checks.specs.Graphs.{level_of, NoneRises, Path};

use crate::walk::arrows_of;
use abc_value::List;

/// The level of the node; 0 where there is none for it.
fn level_of(levels: &[usize], node: usize) -> usize
    ensures { result ≡ level_of levels.now node }
{
    match levels.get(node) {
        Some(level) => *level,
        None => 0,
    }
}

/// Whether one of the nodes has a level above the bound.
fn any_above(levels: &[usize], bound: usize, nodes: &[usize]) -> bool
    ensures { result ≡ list_any (λ j. nat_lt bound (level_of levels.now j)) nodes.now }
{
    for node in nodes {
        if bound < level_of(levels, *node) {
            return true;
        }
    }
    false
}

/// Whether no arrow leads to a higher level.
pub fn none_rises(graph: &[List<usize>], levels: &[usize]) -> bool
    ensures { result ≡ true → NoneRises graph.now levels.now }
{
    for node in 0..graph.len() {
        if any_above(levels, level_of(levels, node), arrows_of(graph, node)) {
            return false;
        }
    }
    true
}

/// Whether each arrow of the node leads to a lower level.
pub fn only_falls(graph: &[List<usize>], levels: &[usize], node: usize) -> bool
    ensures { result ≡ true → NoneRises graph.now levels.now → ¬ Path graph.now node node }
{
    let level = level_of(levels, node);
    level > 0 && !any_above(levels, level - 1, arrows_of(graph, node))
}
