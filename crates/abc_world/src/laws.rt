//! The contract of each function is a law, and its body does nothing but name those that it
//! stands on.
ghost use Rattle.abc_world.specs.ShapeLaws.{ClusterHasLaws, RingHasLaws, TreeHasLaws};

use abc_body::Body;
use abc_network_laws::{
    cluster_is_bounded, cluster_settles, ring_is_bounded, ring_settles, tree_is_bounded,
    tree_settles,
};
use abc_schedule::{cluster_keeps_records, ring_keeps_records, tree_keeps_records};

/// Every run of a cluster has a bound on its events, settles, and leaves a legal record.
pub fn clusters_have_laws<B: Body>()
    ensures { ClusterHasLaws B.meaning }
{
    cluster_is_bounded::<B>();
    cluster_settles::<B>();
    cluster_keeps_records::<B>();
}

/// The same of a ring.
pub fn rings_have_laws<B: Body>()
    ensures { RingHasLaws B.meaning }
{
    ring_is_bounded::<B>();
    ring_settles::<B>();
    ring_keeps_records::<B>();
}

/// The same of a tree.
pub fn trees_have_laws<B: Body>()
    ensures { TreeHasLaws B.meaning }
{
    tree_is_bounded::<B>();
    tree_settles::<B>();
    tree_keeps_records::<B>();
}
