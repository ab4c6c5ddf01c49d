use abc_packet::{List, Log};
use abc_shape::Shape;

/// What is left of a run of a network: which network it was, and what each of its actors did.
#[derive(Drop)]
pub struct Record<L> {
    /// The shape of the network.
    pub shape: Shape,
    /// The number of agents.
    pub agents: u32,
    /// The number of sequencing nodes.
    pub nodes: u32,
    /// The greatest sequence number that could be drawn.
    pub limit: u32,
    /// Where the turns begin, which pick places.
    pub pick: u64,
    /// The log of each actor, those of the agents first.
    pub logs: List<Log<L>>,
}

fn crosses_threads<T: Send>() {}

/// A record may go to another thread where its labels may be shared.
fn records_cross_threads<L: Send + Sync>() {
    crosses_threads::<Record<L>>();
}
