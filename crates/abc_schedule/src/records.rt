//! What legal records tell, for every body and each shape.
ghost use Rattle.abc_schedule.specs.Laws.{ClusterRecords, RingRecords, TreeRecords};

use abc_body::Body;

/// In a legal record of a cluster of 1 to 256 agents and 1 to 64 nodes all fronts are the count of numbers,
/// each number has one sender, and the choices that the logs tell are a run of the multicast of the
/// bodies. A run that ends still, with no gap in its draws and Closed answered only where all
/// numbers are drawn, leaves a legal record.
pub fn cluster_keeps_records<B: Body>()
    ensures { ClusterRecords B.meaning }
{}

/// The same of a ring.
pub fn ring_keeps_records<B: Body>()
    ensures { RingRecords B.meaning }
{}

/// The same of a tree.
pub fn tree_keeps_records<B: Body>()
    ensures { TreeRecords B.meaning }
{}
