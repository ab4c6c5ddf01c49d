//! The sequencing nodes of a network at its start, by shape.
ghost use Rattle.std.specs.Prelude.{◌≡◌, IfOk};
ghost use Rattle.abc_shape.specs.declared.shape.Shape.TheVariants.{Cluster, Ring, Tree};
ghost use Rattle.abc_network.specs.Stores.{blank_store};
ghost use Rattle.abc_world.specs.Crews.{AreNodes};
ghost use Rattle.abc_world.specs.Starting.{AreBlank};

use abc_cluster::ClusterNode;
use abc_packet::NoMemory;
use abc_ring::RingNode;
use abc_shape::Plan;
use abc_tree::TreeNode;
use std::alloc::Global;

/// The nodes of a cluster,
pub(crate) fn cluster_nodes<'p, L: Drop>(
    alloc: Global,
    plan: &'p Plan,
) -> Result<Vec<ClusterNode<'p, L>>, NoMemory>
    requires shape { plan.now.shape ≡ Cluster }
    ensures nodes { IfOk result (λ nodes. AreNodes plan.now nodes.items) }
    ensures blank { IfOk result (λ nodes. AreBlank tt plan.now nodes.items) }
{
    let count = plan.nodes();
    let mut nodes = Vec::with_capacity(alloc, count as usize)?;
    'making: for number in 0..count {
        nodes.push(ClusterNode::new(alloc, number, plan))?;
    }
    Ok(nodes)
}

/// of a ring
pub(crate) fn ring_nodes<'p, L: Drop>(
    alloc: Global,
    plan: &'p Plan,
) -> Result<Vec<RingNode<'p, L>>, NoMemory>
    requires shape { plan.now.shape ≡ Ring }
    ensures nodes { IfOk result (λ nodes. AreNodes plan.now nodes.items) }
    ensures blank { IfOk result (λ nodes. AreBlank blank_store plan.now nodes.items) }
{
    let count = plan.nodes();
    let mut nodes = Vec::with_capacity(alloc, count as usize)?;
    'making: for number in 0..count {
        nodes.push(RingNode::new(alloc, number, plan))?;
    }
    Ok(nodes)
}

/// and of a tree.
pub(crate) fn tree_nodes<'p, L: Drop>(
    alloc: Global,
    plan: &'p Plan,
) -> Result<Vec<TreeNode<'p, L>>, NoMemory>
    requires shape { plan.now.shape ≡ Tree }
    ensures nodes { IfOk result (λ nodes. AreNodes plan.now nodes.items) }
    ensures blank { IfOk result (λ nodes. AreBlank blank_store plan.now nodes.items) }
{
    let count = plan.nodes();
    let mut nodes = Vec::with_capacity(alloc, count as usize)?;
    'making: for number in 0..count {
        nodes.push(TreeNode::new(alloc, number, plan))?;
    }
    Ok(nodes)
}
