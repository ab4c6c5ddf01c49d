use crate::shape::Shape;

/// A plan has at most this many agents.
pub const MOST_AGENTS: u32 = 256;

/// A plan has at most this many nodes.
pub const MOST_NODES: u32 = 64;

/// The actors between which a link leads. Agents are the actors 0, 1 and so on, and the nodes are the
/// actors after them.
#[derive(Clone, Copy, Debug, PartialEq, Eq)]
pub struct LinkEnds {
    /// The actor that sends on the link.
    pub from: u32,
    /// The actor that receives from it.
    pub to: u32,
}

/// What a plan is of: a shape, and the numbers of agents and nodes.
#[derive(Clone, Copy, Debug, PartialEq, Eq)]
pub struct Layout {
    /// How the nodes are linked.
    pub shape: Shape,
    /// The number of agents.
    pub agents: u32,
    /// The number of nodes.
    pub nodes: u32,
}
