//! Each function's contract is a law, and its body does nothing.
ghost use Rattle.abc_logs.specs.Laws.{AgentPathsGoOn, ClusterPathsGoOn, RingPathsGoOn, TreePathsGoOn};

use abc_body::Body;

/// Where the log of an agent is a path from its start, and the agent makes a micro-step by its
/// table, its log is a path again, and what it has sent is what it had sent and then this.
pub fn agents_paths_go_on<B: Body>()
    ensures { AgentPathsGoOn B.meaning }
{}

/// The same of a cluster's node.
pub fn cluster_paths_go_on<L>()
    ensures { ClusterPathsGoOn L }
{}

/// The same of a ring's node.
pub fn ring_paths_go_on<L>()
    ensures { RingPathsGoOn L }
{}

/// The same of a tree's node.
pub fn tree_paths_go_on<L>()
    ensures { TreePathsGoOn L }
{}
