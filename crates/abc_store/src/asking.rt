//! What a node does with a request or a reply that arrives.
ghost use Rattle.std.specs.Prelude.{◌≡◌, ◌<◌, ◌≤◌, [], ◌∷◌, None, Some, IfOk, OnOk, OnErr};
ghost use Rattle.abc_packet.specs.declared.log.Deed.TheVariants.{Arrived};
ghost use Rattle.abc_packet.specs.declared.packets.Packet.TheVariants.{Reply};
ghost use Rattle.abc_packet.specs.Packets.{packet_number};
ghost use Rattle.abc_packet.specs.Outlets.{Sends, SameLists, SameLinks};
ghost use Rattle.abc_network.specs.Stores.{Store};
ghost use Rattle.abc_logs.specs.MicroSteps.{stamped_with};
ghost use Rattle.abc_history.specs.Histories.{Noted};
ghost use Rattle.abc_history.specs.Nodes.{acting, Drew};
ghost use Rattle.abc_store.specs.Storing.{ArrivesBy, IsAsking, HasAll};

use crate::deeds::{log_arrival, log_stray};
use crate::handling::Handling;
use crate::rows::Rows;
use abc_history::{History, reply};
use abc_number::Numbers;
use abc_packet::{Grant, MOST_CLOCK, MOST_NUMBER, NoMemory, Outlet, Packet, Stamped};

/// Makes room, draws for the request of an agent, and replies on the link `back`. It answers what
/// it drew. After NoMemory all is as before, and no number is drawn.
fn answer<L: Drop, N: Numbers, O: Outlet<L>>(
    history: &mut History<L>,
    link: u32,
    stamped: Stamped<L>,
    agent: u32,
    back: u32,
    numbers: &mut N,
    outlet: &mut O,
) -> Result<Grant, NoMemory>
    requires room { 0 < history.old.room }
    requires clock { history.old.clock < MOST_CLOCK }
    requires stamp { stamped.clock < MOST_CLOCK }
    requires back { O.has_link outlet.old back }
    ensures noted { IfOk result (λ drew.
        Noted history.old (Arrived link stamped (Some drew)) history.new) }
    ensures drew { IfOk result (λ drew.
        Drew N.limit N.drawn N.closed N.stays (Some drew) numbers.old numbers.new) }
    ensures sent { IfOk result (λ drew. Sends (O.lists outlet.old)
        (stamped_with history.new.clock ((back, Reply agent drew) ∷ [])) (O.lists outlet.new)) }
    ensures err { OnErr result ((history.new ≡ history.old) × (numbers.new ≡ numbers.old)
        × SameLists (O.lists outlet.old) (O.lists outlet.new)) }
    ensures links { SameLinks (O.has_link outlet.old) (O.has_link outlet.new) }
    ensures rest { O.rest outlet.new ≡ O.rest outlet.old }
{
    outlet.make_room(1)?;
    Ok(reply(history, link, stamped, agent, back, numbers, outlet))
}

/// Makes room, and sends the packet on. After NoMemory all is as before.
fn send_packet<L: Drop, O: Outlet<L>>(
    history: &mut History<L>,
    link: u32,
    stamped: Stamped<L>,
    packet: Packet<L>,
    on: u32,
    outlet: &mut O,
) -> Result<(), NoMemory>
    requires number { packet_number packet ≤ MOST_NUMBER }
    requires room { 0 < history.old.room }
    requires clock { history.old.clock < MOST_CLOCK }
    requires stamp { stamped.clock < MOST_CLOCK }
    requires on { O.has_link outlet.old on }
    ensures noted { OnOk result (Noted history.old (Arrived link stamped None) history.new) }
    ensures sent { OnOk result (Sends (O.lists outlet.old)
        (stamped_with history.new.clock ((on, packet) ∷ [])) (O.lists outlet.new)) }
    ensures err { OnErr result ((history.new ≡ history.old)
        × SameLists (O.lists outlet.old) (O.lists outlet.new)) }
    ensures links { SameLinks (O.has_link outlet.old) (O.has_link outlet.new) }
    ensures rest { O.rest outlet.new ≡ O.rest outlet.old }
{
    outlet.make_room(1)?;
    let clock = history.clock_after(&stamped);
    outlet.send(on, Stamped::new(clock, packet));
    log_arrival(history, link, stamped);
    Ok(())
}

/// Does with a request or a reply what the rows say. After NoMemory all is as before, and no number
/// is drawn.
pub(crate) fn handle<L: Drop, R: Rows<L>, N: Numbers, O: Outlet<L>>(
    rows: &R,
    history: &mut History<L>,
    link: u32,
    stamped: Stamped<L>,
    packet: Packet<L>,
    numbers: &mut N,
    outlet: &mut O,
) -> Result<(), NoMemory>
    requires packet { packet ≡ stamped.packet }
    requires asking { IsAsking packet }
    requires number { packet_number packet ≤ MOST_NUMBER }
    requires room { 0 < history.old.room }
    requires clock { history.old.clock < MOST_CLOCK }
    requires stamp { stamped.clock < MOST_CLOCK }
    requires leave { HasAll (R.leaves rows.now) (O.has_link outlet.old) }
    ensures made { OnOk result ((s : Store L) →
        ArrivesBy (R.kind rows.now) (R.node rows.now) link stamped
        (acting s history.old) (acting s history.new) (O.lists outlet.old) (O.lists outlet.new)
        (λ d. Drew N.limit N.drawn N.closed N.stays d numbers.old numbers.new)) }
    ensures err { OnErr result ((history.new ≡ history.old) × (numbers.new ≡ numbers.old)
        × SameLists (O.lists outlet.old) (O.lists outlet.new)) }
    ensures links { SameLinks (O.has_link outlet.old) (O.has_link outlet.new) }
    ensures rest { O.rest outlet.new ≡ O.rest outlet.old }
{
    match rows.handling(link, &packet) {
        Handling::Answers { agent, back } => {
            answer(history, link, stamped, agent, back, numbers, outlet)?;
            Ok(())
        }
        Handling::SendsOn { on } => send_packet(history, link, stamped, packet, on, outlet),
        Handling::Nothing => {
            log_stray(history, link, stamped);
            Ok(())
        }
    }
}
