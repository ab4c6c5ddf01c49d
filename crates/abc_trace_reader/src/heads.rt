//! What the first line asks of the others.
ghost use Rattle.std.specs.Prelude.{◌≡◌, ◌↔◌, IsTrue};
ghost use Rattle.abc_trace.specs.Texts as text;
ghost use Rattle.abc_trace.specs.WellFormed as formed;

use abc_trace::Head;

/// The greatest number of a line.
pub fn limit_of(head: Head) -> u64
    ensures { result ≡ text.limit_of head }
{
    match head {
        Head::Solo { limit, pick: _ } => u64::from(limit),
        Head::Net {
            shape: _,
            limit,
            nodes: _,
            pick: _,
        } => u64::from(limit),
    }
}

/// How many nodes there are.
pub fn nodes_of(head: Head) -> u64
    ensures { result ≡ formed.nodes_of head }
{
    match head {
        Head::Solo { limit: _, pick: _ } => 0,
        Head::Net {
            shape: _,
            limit: _,
            nodes,
            pick: _,
        } => u64::from(nodes),
    }
}

/// Whether a number may have nothing said under it.
pub fn is_net(head: Head) -> bool
    ensures { IsTrue result ↔ formed.IsNet head }
{
    match head {
        Head::Solo { limit: _, pick: _ } => false,
        Head::Net {
            shape: _,
            limit: _,
            nodes: _,
            pick: _,
        } => true,
    }
}
