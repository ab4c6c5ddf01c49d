//! What a run of a network has to do with the multicast of its bodies.
ghost use Rattle.abc_network_laws.specs.Statements.{ClusterSimulates, RingSimulates, TreeSimulates};

use abc_body::Body;

/// Every run of a cluster is a run of the multicast of its bodies: its numbers are 1, 2 and so on,
/// each turned by one sender; each agent has taken the numbers up to its front in this order, and
/// made its own moves at them; and up to each number that all agents have reached the moves, taken
/// by number, are a run of the multicast.
pub fn cluster_simulates<B: Body>()
    ensures { ClusterSimulates B.meaning }
{}

/// The same of a ring of at least one node.
pub fn ring_simulates<B: Body>()
    ensures { RingSimulates B.meaning }
{}

/// The same of a tree of at least one node.
pub fn tree_simulates<B: Body>()
    ensures { TreeSimulates B.meaning }
{}
