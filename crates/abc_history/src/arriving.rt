//! The micro-steps in which a node sends when a packet arrives. What can be refused is done before:
//! there is room in the log and in the outlet, and the copies are made.
ghost use Rattle.std.specs.Prelude.{◌≡◌, ◌+◌, ◌<◌, ◌≤◌, max, [], ◌∷◌, length, Some, None};
ghost use Rattle.abc_packet.specs.declared.log.Deed.TheVariants.{Arrived};
ghost use Rattle.abc_packet.specs.declared.packets.Packet.TheVariants.{Reply};
ghost use Rattle.abc_packet.specs.Outlets.{Sends, SameLinks};
ghost use Rattle.abc_logs.specs.MicroSteps.{stamped_with};
ghost use Rattle.abc_history.specs.Histories.{Noted};
ghost use Rattle.abc_history.specs.Nodes.{Drew};
ghost use Rattle.abc_history.specs.Outs.{AreOnLinks};

use crate::history::History;
use crate::sending::send_all;
use abc_number::Numbers;
use abc_packet::{Deed, Grant, MOST_CLOCK, Outlet, Packet, Stamped};
use std::collections::VecDeque;

/// A node draws for the request of an agent, and replies on the link `back`. It answers what it
/// drew.
pub fn reply<L: Drop, N: Numbers, O: Outlet<L>>(
    history: &mut History<L>,
    link: u32,
    stamped: Stamped<L>,
    agent: u32,
    back: u32,
    numbers: &mut N,
    outlet: &mut O,
) -> Grant
    requires clock { history.old.clock < MOST_CLOCK }
    requires packet { stamped.clock < MOST_CLOCK }
    requires room { 0 < history.old.room }
    requires back { O.has_link outlet.old back }
    requires out { 0 < O.room_of outlet.old }
    ensures noted { Noted history.old (Arrived link stamped (Some result)) history.new }
    ensures drew { Drew N.limit N.drawn N.closed N.stays (Some result) numbers.old numbers.new }
    ensures links { SameLinks (O.has_link outlet.old) (O.has_link outlet.new) }
    ensures lists { let sent = stamped_with history.new.clock ((back, Reply agent result) ∷ []) in
        Sends (O.lists outlet.old) sent (O.lists outlet.new) }
    ensures rest { O.rest outlet.new ≡ O.rest outlet.old }
{
    let clock = history.clock_after(&stamped);
    let grant = numbers.draw();
    outlet.send(back, Stamped::new(clock, Packet::Reply { agent, grant }));
    let drew = Some(grant);
    history.note(
        clock,
        Deed::Arrived {
            link,
            stamped,
            drew,
        },
    );
    grant
}

/// A node sends a message on. The copies have the clock of the entry.
pub fn send_on<L: Drop, O: Outlet<L>>(
    history: &mut History<L>,
    link: u32,
    stamped: Stamped<L>,
    clock: u64,
    ready: VecDeque<(u32, Stamped<L>)>,
    outlet: &mut O,
)
    requires next { clock ≡ max history.old.clock stamped.clock + 1 }
    requires room { 0 < history.old.room }
    requires on { AreOnLinks (O.has_link outlet.old) ready.items }
    requires out { length ready.items ≤ O.room_of outlet.old }
    ensures noted { Noted history.old (Arrived link stamped None) history.new }
    ensures links { SameLinks (O.has_link outlet.old) (O.has_link outlet.new) }
    ensures lists { Sends (O.lists outlet.old) ready.items (O.lists outlet.new) }
    ensures rest { O.rest outlet.new ≡ O.rest outlet.old }
{
    send_all(outlet, ready);
    let drew = None;
    history.note(
        clock,
        Deed::Arrived {
            link,
            stamped,
            drew,
        },
    );
}
