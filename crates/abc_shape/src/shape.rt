/// How the sequencing nodes of a network are linked.
#[derive(Clone, Copy, Debug, PartialEq, Eq)]
pub enum Shape {
    /// Each agent is linked to each node, and no two nodes are linked.
    Cluster,
    /// Each node is linked to its successor, and each agent to one node.
    Ring,
    /// The nodes are a binary tree, and each agent is linked to one node.
    Tree,
}

fn crosses_threads<T: Send + Sync>() {}

/// Shapes may go to another thread and be shared.
fn shapes_cross_threads() {
    crosses_threads::<Shape>();
}
