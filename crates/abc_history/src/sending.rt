ghost use Rattle.std.specs.Prelude.{◌≡◌, ◌≤◌, length};
ghost use Rattle.abc_packet.specs.Outlets.{Sends, SameLinks};
ghost use Rattle.abc_history.specs.Outs.{AreOnLinks};

use abc_packet::{Outlet, Stamped};
use std::collections::VecDeque;

/// Sends packets that were made before, each on its link, in order. It takes no memory.
pub fn send_all<L: Drop, O: Outlet<L>>(outlet: &mut O, mut ready: VecDeque<(u32, Stamped<L>)>)
    requires links { AreOnLinks (O.has_link outlet.old) ready.items }
    requires room { length ready.items ≤ O.room_of outlet.old }
    ensures links { SameLinks (O.has_link outlet.old) (O.has_link outlet.new) }
    ensures lists { Sends (O.lists outlet.old) ready.items (O.lists outlet.new) }
    ensures rest { O.rest outlet.new ≡ O.rest outlet.old }
{
    'sending: while let Some((link, stamped)) = ready.pop_front() {
        outlet.send(link, stamped);
    }
}
