//! How far logical clocks go.
ghost use Rattle.abc_network_runs.specs.Clocks.{ClocksCountEvents, ClocksAreLow};

use abc_body::Body;
use abc_network_laws::{cluster_is_bounded, ring_is_bounded, tree_is_bounded};

/// In every run no clock, of an actor or of a packet on a link, is above the number of events.
pub fn clocks_count_events<B: Body>()
    ensures { ClocksCountEvents B.meaning }
{}

/// So in every run of a network of at most 256 agents and 64 nodes, whose numbers are at most
/// 1,000,000, each clock is below the greatest one that a packet can have.
pub fn clocks_are_low<B: Body>()
    ensures { ClocksAreLow B.meaning }
{
    clocks_count_events::<B>();
    cluster_is_bounded::<B>();
    ring_is_bounded::<B>();
    tree_is_bounded::<B>();
}
