//! From the number of a link to its ends.

ghost use Rattle.std.specs.Prelude.{◌≡◌, ◌≢◌, ◌+◌, ◌-◌, ◌*◌, ◌<◌, ◌^◌};
ghost use Rattle.abc_shape.specs.declared.shape.Shape.TheVariants.{Cluster, Ring, Tree};
ghost use Rattle.abc_shape.specs.Plans.{IsLayout, IsLink, link_count, home};

use crate::layout::{Layout, LinkEnds};
use crate::shape::Shape;

/// The number of links.
pub fn count_links(layout: Layout) -> u32
    requires { IsLayout layout }
    ensures count { result ≡ link_count layout }
    ensures small { result < 2 ^ 16 }
{
    let agents = layout.agents;
    match layout.shape {
        Shape::Cluster => 2 * (agents * layout.nodes),
        Shape::Ring if layout.nodes == 1 => 2 * agents,
        Shape::Ring => 2 * agents + layout.nodes,
        Shape::Tree => 2 * agents + 2 * (layout.nodes - 1),
    }
}

fn cluster_ends(layout: Layout, number: u32) -> LinkEnds
    requires layout { IsLayout layout }
    requires cluster { layout.shape ≡ Cluster }
    requires there { number < link_count layout }
    ensures { IsLink layout number result.from result.to }
{
    let pair = number / 2;
    let agent = pair / layout.nodes;
    let node = layout.agents + pair % layout.nodes;
    if number % 2 == 0 {
        LinkEnds {
            from: agent,
            to: node,
        }
    } else {
        LinkEnds {
            from: node,
            to: agent,
        }
    }
}

fn home_ends(layout: Layout, number: u32) -> LinkEnds
    requires layout { IsLayout layout }
    requires homes { layout.shape ≢ Cluster }
    requires there { number < 2 * layout.agents }
    ensures { IsLink layout number result.from result.to }
{
    let agent = number / 2;
    let node = layout.agents + agent % layout.nodes;
    if number % 2 == 0 {
        LinkEnds {
            from: agent,
            to: node,
        }
    } else {
        LinkEnds {
            from: node,
            to: agent,
        }
    }
}

fn ring_ends(layout: Layout, node: u32) -> LinkEnds
    requires layout { IsLayout layout }
    requires ring { layout.shape ≡ Ring }
    requires several { 1 < layout.nodes }
    requires there { node < layout.nodes }
    ensures { IsLink layout (2 * layout.agents + node) result.from result.to }
{
    LinkEnds {
        from: layout.agents + node,
        to: layout.agents + (node + 1) % layout.nodes,
    }
}

fn tree_ends(layout: Layout, past: u32) -> LinkEnds
    requires layout { IsLayout layout }
    requires tree { layout.shape ≡ Tree }
    requires there { past < 2 * (layout.nodes - 1) }
    ensures { IsLink layout (2 * layout.agents + past) result.from result.to }
{
    let child = layout.agents + past / 2 + 1;
    let parent = layout.agents + past / 2 / 2;
    if past % 2 == 0 {
        LinkEnds {
            from: child,
            to: parent,
        }
    } else {
        LinkEnds {
            from: parent,
            to: child,
        }
    }
}

/// The ends of the link with this number.
pub fn ends_of(layout: Layout, number: u32) -> LinkEnds
    requires layout { IsLayout layout }
    requires there { number < link_count layout }
    ensures { IsLink layout number result.from result.to }
{
    let agents = layout.agents;
    match layout.shape {
        Shape::Cluster => cluster_ends(layout, number),
        Shape::Ring | Shape::Tree if number < 2 * agents => home_ends(layout, number),
        Shape::Ring => ring_ends(layout, number - 2 * agents),
        Shape::Tree => tree_ends(layout, number - 2 * agents),
    }
}
