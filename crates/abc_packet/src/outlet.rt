ghost use Rattle.std.specs.Prelude.{◌≡◌, ℕ, ◌≤◌, ◌<◌, ◌+◌, List, [], ◌∷◌, OnOk, OnErr};
ghost use Rattle.abc_packet.specs.declared.stamped.Stamped.{Stamped};
ghost use Rattle.abc_packet.specs.Outlets.{Sends, SameLists, SameLinks};

use crate::stamped::Stamped;
use abc_value::NoMemory;

/// Where actors send packets: it has a set of links, which no call changes, and a list of packets
/// for each.
///
/// Contracts see the set by `has_link`, the list of each link by `lists`, for how many packets it
/// has room by `room_of`, and what it holds beside its lists by `rest`.
pub trait Outlet<L> {
    /// What an outlet holds beside its lists. No call changes it.
    type Rest;

    ghost has_link: { Self → ℕ → Type 0 };

    ghost lists: { Self → ℕ → List (Stamped L) };

    ghost room_of: { Self → ℕ };

    ghost rest: { Self → Self.Rest };

    /// For how many packets there is room.
    fn room(&self) -> usize
        ensures { result ≡ room_of self.now };

    /// Makes room for at least `count` packets. After NoMemory the room is as before.
    fn make_room(&mut self, count: usize) -> Result<(), NoMemory>
        ensures links { SameLinks (has_link self.old) (has_link self.new) }
        ensures lists { SameLists (lists self.old) (lists self.new) }
        ensures rest { rest self.new ≡ rest self.old }
        ensures ok { OnOk result (count ≤ room_of self.new) }
        ensures err { OnErr result (room_of self.new ≡ room_of self.old) };

    /// Appends a packet to the list of its link. It takes no memory, and at most one of the room.
    fn send(&mut self, link: u32, stamped: Stamped<L>)
        requires has { has_link self.old link }
        requires room { 0 < room_of self.old }
        ensures links { SameLinks (has_link self.old) (has_link self.new) }
        ensures lists { Sends (lists self.old) ((link, stamped) ∷ []) (lists self.new) }
        ensures rest { rest self.new ≡ rest self.old }
        ensures room { room_of self.old ≤ room_of self.new + 1 };
}
