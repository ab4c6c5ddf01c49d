//! Each function's contract is a law, and its body does nothing.
ghost use Rattle.abc_schedule.specs.Laws.{ClusterSchedules, RingSchedules, TreeSchedules};
ghost use Rattle.abc_schedule.specs.Wrong.{WrongLawsFall};

use abc_body::Body;

/// Logs of a cluster of 1 to 256 agents and 1 to 64 nodes have one schedule: where each is a path, each
/// link is joined up to what is on it and no number is drawn twice, the merge of the logs is a run
/// of the network from its start. And the logs of every run are such logs. Their clocks rise, that
/// of an arrival is above its packet's, and none is above the count of all entries.
pub fn cluster_has_one_schedule<B: Body>()
    ensures { ClusterSchedules B.meaning }
{}

/// The same of a ring.
pub fn ring_has_one_schedule<B: Body>()
    ensures { RingSchedules B.meaning }
{}

/// The same of a tree.
pub fn tree_has_one_schedule<B: Body>()
    ensures { TreeSchedules B.meaning }
{}

/// With less than this a merge need be no run: an arrival at its packet's clock, an order by actor
/// before clock, logs that each took what the other sent later, a link that swaps packets or leaves
/// one behind, a number drawn twice.
pub fn wrong_laws_fall()
    ensures { WrongLawsFall }
{}
