use super::*;
use std::test::Fail;

const fn ends(from: u32, to: u32) -> LinkEnds {
    LinkEnds { from, to }
}

#[test]
fn a_tree_of_four_nodes(rt: HostRuntime) -> Result<(), Fail> {
    let plan = Plan::new(rt.alloc(), Shape::Tree, 3, 4)?;
    assert_eq!(rt; plan.shape(), Shape::Tree);
    assert_eq!(rt; (plan.agents(), plan.nodes()), (3, 4));
    let links = [
        ends(0, 3),
        ends(3, 0),
        ends(1, 4),
        ends(4, 1),
        ends(2, 5),
        ends(5, 2),
        ends(4, 3),
        ends(3, 4),
        ends(5, 3),
        ends(3, 5),
        ends(6, 4),
        ends(4, 6),
    ];
    assert!(rt; plan.links() == links.as_slice(), "the links of a tree");
    assert_eq!(rt; (plan.parent(3), plan.parent(0)), (Some(1), None));
    assert_eq!(rt;
        (plan.link(6, 4), plan.link(4, 6), plan.link(6, 3)),
        (Some(10), Some(11), None)
    );
    assert_eq!(rt;
        (plan.route(3, 2), plan.route(0, 1), plan.route(1, 1)),
        (10, 7, 3)
    );
    Ok(())
}

#[test]
fn a_ring_and_a_cluster(rt: HostRuntime) -> Result<(), Fail> {
    let ring = Plan::new(rt.alloc(), Shape::Ring, 2, 3)?;
    let links = [
        ends(0, 2),
        ends(2, 0),
        ends(1, 3),
        ends(3, 1),
        ends(2, 3),
        ends(3, 4),
        ends(4, 2),
    ];
    assert!(rt; ring.links() == links.as_slice(), "the links of a ring");
    assert_eq!(rt;
        (ring.successor(1), ring.successor(2), ring.home(1)),
        (2, 0, 1)
    );
    let alone = Plan::new(rt.alloc(), Shape::Ring, 1, 1)?;
    assert!(rt;
        alone.links() == [ends(0, 1), ends(1, 0)].as_slice(),
        "a ring of one node"
    );
    let cluster = Plan::new(rt.alloc(), Shape::Cluster, 2, 2)?;
    let links = [
        ends(0, 2),
        ends(2, 0),
        ends(0, 3),
        ends(3, 0),
        ends(1, 2),
        ends(2, 1),
        ends(1, 3),
        ends(3, 1),
    ];
    assert!(rt;
        cluster.links() == links.as_slice(),
        "the links of a cluster"
    );
    assert_eq!(rt;
        (cluster.route(1, 0), cluster.link(2, 1), cluster.link(2, 3)),
        (3, Some(5), None)
    );
    Ok(())
}

#[test]
fn the_largest_plan(rt: HostRuntime) -> Result<(), Fail> {
    let plan = Plan::new(rt.alloc(), Shape::Cluster, MOST_AGENTS, MOST_NODES)?;
    assert_eq!(rt; plan.links().len(), 2 * 256 * 64);
    assert_eq!(rt; plan.link(255, 319), Some(32766));
    Ok(())
}
