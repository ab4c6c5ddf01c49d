//! The arrival of a packet at a node: each row of the table, and what is made ready for all.
ghost use Rattle.std.specs.Prelude.{◌≡◌, ◌<◌, ◌≤◌, None, OnOk, OnErr};
ghost use Rattle.abc_packet.specs.declared.log.Deed.TheVariants.{Stray};
ghost use Rattle.abc_packet.specs.Outlets.{SameLinks, SameLists};
ghost use Rattle.abc_history.specs.Histories.{Noted};
ghost use Rattle.abc_history.specs.Nodes.{Drew};
ghost use Rattle.abc_cluster.specs.declared.station.Row.TheVariants.{Asks, Says};
ghost use Rattle.abc_cluster.specs.Rows.{IsRow};
ghost use Rattle.abc_cluster.specs.Stations.{ArrivesAt, HasLinksOf};

use crate::station::{Row, Station};
use abc_history::{History, reply, send_on};
use abc_number::Numbers;
use abc_packet::{Deed, MOST_CLOCK, NoMemory, Outlet, Stamped};
use std::alloc::Global;

/// A stray is logged, and changes nothing else.
fn note_stray<L: Drop>(history: &mut History<L>, link: u32, stamped: Stamped<L>)
    requires clock { history.old.clock < MOST_CLOCK }
    requires packet { stamped.clock < MOST_CLOCK }
    requires room { 0 < history.old.room }
    ensures { Noted history.old (Stray link stamped) history.new }
{
    let clock = history.clock_after(&stamped);
    history.note(clock, Deed::Stray { link, stamped });
}

/// For a request a number is drawn, and the agent that asks is answered.
fn answer<L: Drop, N: Numbers, O: Outlet<L>>(
    station: &Station,
    history: &mut History<L>,
    link: u32,
    stamped: Stamped<L>,
    agent: u32,
    numbers: &mut N,
    outlet: &mut O,
)
    requires row { IsRow station.now link stamped.packet (Asks agent) }
    requires from { HasLinksOf station.now.plan station.now.number (O.has_link outlet.old) }
    requires clock { history.old.clock < MOST_CLOCK }
    requires packet { stamped.clock < MOST_CLOCK }
    requires room { 0 < history.old.room }
    requires out { 0 < O.room_of outlet.old }
    ensures arrives { ArrivesAt station.now link stamped history.old history.new
        (O.lists outlet.old) (O.lists outlet.new)
        (λ drew. Drew N.limit N.drawn N.closed N.stays drew numbers.old numbers.new) }
    ensures links { SameLinks (O.has_link outlet.old) (O.has_link outlet.new) }
    ensures rest { O.rest outlet.new ≡ O.rest outlet.old }
{
    let back = station.link_to(agent);
    reply(history, link, stamped, agent, back, numbers, outlet);
}

/// A message goes to all but its sender. After NoMemory all is as before.
fn spread<L: Drop, O: Outlet<L>>(
    alloc: Global,
    station: &Station,
    history: &mut History<L>,
    link: u32,
    stamped: Stamped<L>,
    sender: u32,
    outlet: &mut O,
) -> Result<(), NoMemory>
    requires row { IsRow station.now link stamped.packet (Says sender) }
    requires from { HasLinksOf station.now.plan station.now.number (O.has_link outlet.old) }
    requires clock { history.old.clock < MOST_CLOCK }
    requires packet { stamped.clock < MOST_CLOCK }
    requires room { 0 < history.old.room }
    requires out { station.now.plan.agents ≤ O.room_of outlet.old }
    ensures ok { OnOk result (ArrivesAt station.now link stamped history.old history.new
        (O.lists outlet.old) (O.lists outlet.new)
        (λ drew. drew ≡ None)) }
    ensures err { OnErr result
        ((history.new ≡ history.old) × SameLists (O.lists outlet.old) (O.lists outlet.new)) }
    ensures links { SameLinks (O.has_link outlet.old) (O.has_link outlet.new) }
    ensures rest { O.rest outlet.new ≡ O.rest outlet.old }
{
    let clock = history.clock_after(&stamped);
    let ready = station.copies_of(alloc, sender, &stamped, clock)?;
    send_on(history, link, stamped, clock, ready, outlet);
    Ok(())
}

/// The packet is taken by its row, where there is room for all that can come of it. After NoMemory
/// all is as before.
fn take_in<L: Drop, N: Numbers, O: Outlet<L>>(
    alloc: Global,
    station: &Station,
    history: &mut History<L>,
    link: u32,
    stamped: Stamped<L>,
    numbers: &mut N,
    outlet: &mut O,
) -> Result<(), NoMemory>
    requires from { HasLinksOf station.now.plan station.now.number (O.has_link outlet.old) }
    requires clock { history.old.clock < MOST_CLOCK }
    requires packet { stamped.clock < MOST_CLOCK }
    requires room { 0 < history.old.room }
    requires out { station.now.plan.agents ≤ O.room_of outlet.old }
    ensures ok { OnOk result (ArrivesAt station.now link stamped history.old history.new
        (O.lists outlet.old) (O.lists outlet.new)
        (λ drew. Drew N.limit N.drawn N.closed N.stays drew numbers.old numbers.new)) }
    ensures history { OnErr result (history.new ≡ history.old) }
    ensures numbers { OnErr result (numbers.new ≡ numbers.old) }
    ensures lists { OnErr result (SameLists (O.lists outlet.old) (O.lists outlet.new)) }
    ensures links { SameLinks (O.has_link outlet.old) (O.has_link outlet.new) }
    ensures rest { O.rest outlet.new ≡ O.rest outlet.old }
{
    let row = station.row_in(link, &stamped)?;
    match row {
        Row::Asks(agent) => {
            answer(station, history, link, stamped, agent, numbers, outlet);
            Ok(())
        }
        Row::Says(sender) => spread(alloc, station, history, link, stamped, sender, outlet),
        Row::Other => {
            note_stray(history, link, stamped);
            Ok(())
        }
    }
}

/// A packet arrives. First there is made room for an entry, and for as many packets as there are
/// links from the node. After NoMemory all is as before.
pub(crate) fn arrive_at<L: Drop, N: Numbers, O: Outlet<L>>(
    alloc: Global,
    station: &Station,
    history: &mut History<L>,
    link: u32,
    stamped: Stamped<L>,
    numbers: &mut N,
    outlet: &mut O,
) -> Result<(), NoMemory>
    requires from { HasLinksOf station.now.plan station.now.number (O.has_link outlet.old) }
    requires clock { history.old.clock < MOST_CLOCK }
    requires packet { stamped.clock < MOST_CLOCK }
    ensures ok { OnOk result (ArrivesAt station.now link stamped history.old history.new
        (O.lists outlet.old) (O.lists outlet.new)
        (λ drew. Drew N.limit N.drawn N.closed N.stays drew numbers.old numbers.new)) }
    ensures clock { OnErr result (history.new.clock ≡ history.old.clock) }
    ensures log { OnErr result (history.new.log ≡ history.old.log) }
    ensures numbers { OnErr result (numbers.new ≡ numbers.old) }
    ensures lists { OnErr result (SameLists (O.lists outlet.old) (O.lists outlet.new)) }
    ensures links { SameLinks (O.has_link outlet.old) (O.has_link outlet.new) }
    ensures rest { O.rest outlet.new ≡ O.rest outlet.old }
{
    history.make_room()?;
    outlet.make_room(station.agents() as usize)?;
    take_in(alloc, station, history, link, stamped, numbers, outlet)
}
