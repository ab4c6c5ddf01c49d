//! That nothing is astray, and what stands where nothing can go on.
ghost use Rattle.abc_network_laws.specs.Statements.{ClusterSettles, RingSettles, TreeSettles};

use abc_body::Body;

/// In every run of a cluster no entry is a stray. Where nothing is on a link and no micro-step is
/// possible, all stores are empty, all fronts are equal and, where the draws have no gap, every
/// number that was granted was turned.
pub fn cluster_settles<B: Body>()
    ensures { ClusterSettles B.meaning }
{}

/// The same of a ring of at least one node.
pub fn ring_settles<B: Body>()
    ensures { RingSettles B.meaning }
{}

/// The same of a tree of at least one node.
pub fn tree_settles<B: Body>()
    ensures { TreeSettles B.meaning }
{}
