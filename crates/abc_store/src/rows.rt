ghost use Rattle.std.specs.Prelude.{◌≡◌, ℕ, ◌≤◌, length, All, MatchBool, IfOk};
ghost use Rattle.abc_store.specs.Handlings.{IsHandled, LeavesOn};

use crate::handling::Handling;
use abc_packet::{List, NoMemory, Packet};
use std::alloc::Global;

/// The rows of one node of a shape whose nodes store messages. Contracts see by `kind` and `node`
/// what the rows are of, and by `leaves` which links lead from the node.
pub trait Rows<L>: Drop {
    ghost use Rattle.std.specs.Prelude.{ℕ};
    ghost use Rattle.abc_network.specs.Stores.{StoreKind};

    // the rows of the shape
    ghost kind: { Self → StoreKind L };

    // the number of the node
    ghost node: { Self → ℕ };

    // the links that lead from the node
    ghost leaves: { Self → ℕ → Type 0 };

    /// A number of links that is at least 1, and at least as great as any list of links on which
    /// the node passes a message on.
    fn degree(&self) -> usize
        ensures some { 1 ≤ result }
        ensures most { (sender came : ℕ) →
            length ((kind self.now).outs (node self.now) sender came) ≤ result };

    /// Whether messages of this sender come on this link.
    fn accepts(&self, link: u32, sender: u32) -> bool
        ensures { let comes = (kind self.now).accepts (node self.now) link sender in
            MatchBool result comes (¬ comes) };

    /// What the node does with a request or a reply that comes on this link.
    fn handling(&self, link: u32, packet: &Packet<L>) -> Handling
        ensures handled { IsHandled (kind self.now) (node self.now) link packet.now result }
        ensures leaves { LeavesOn (leaves self.now) result };

    /// The links on which the node passes on a message of this sender that came on a link.
    fn outs(&self, alloc: Global, sender: u32, came: u32) -> Result<List<u32>, NoMemory>
        ensures links { IfOk result (λ ls. ls ≡ (kind self.now).outs (node self.now) sender came) }
        ensures leave { IfOk result (λ ls. All (leaves self.now) ls) };
}
