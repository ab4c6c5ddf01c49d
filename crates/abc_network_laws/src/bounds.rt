//! How many events a run has at most.
ghost use Rattle.abc_network_laws.specs.Statements.{ClusterIsBounded, RingIsBounded, TreeIsBounded};

use abc_body::Body;

/// A run of a cluster of A agents and at least one node, N of them, has at most
/// `15(L + A) + L(2A + 2N)` events, where numbers up to L are drawn.
pub fn cluster_is_bounded<B: Body>()
    ensures { ClusterIsBounded B.meaning }
{}

/// The same of a ring of at least one node.
pub fn ring_is_bounded<B: Body>()
    ensures { RingIsBounded B.meaning }
{}

/// The same of a tree of one to 64 nodes.
pub fn tree_is_bounded<B: Body>()
    ensures { TreeIsBounded B.meaning }
{}
