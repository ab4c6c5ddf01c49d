//! What a node does with a message that arrives.
ghost use Rattle.std.specs.Prelude.{◌≡◌, ◌<◌, ◌≤◌, None, MatchBool, OnOk, OnErr};
ghost use Rattle.abc_packet.specs.declared.packets.Packet.TheVariants.{Message};
ghost use Rattle.abc_packet.specs.Outlets.{Lists};
ghost use Rattle.abc_history.specs.Nodes.{acting};
ghost use Rattle.abc_store.specs.Storing.{ArrivesBy, IsTaken};

use crate::deeds::{log_arrival, log_stray};
use crate::parcel::Parcel;
use crate::rows::Rows;
use crate::stock::Stock;
use abc_history::History;
use abc_packet::{MOST_CLOCK, MOST_NUMBER, NoMemory, Stamped};

/// Whether there is a row for a message of this number and sender that comes on a link.
fn is_taken<L: Drop, R: Rows<L>>(
    rows: &R,
    stock: &Stock<L>,
    link: u32,
    number: u32,
    sender: u32,
) -> bool
    ensures { let taken = IsTaken (R.kind rows.now) (R.node rows.now) in
        MatchBool result (taken stock.now link number sender)
        (¬ taken stock.now link number sender) }
{
    rows.accepts(link, sender) && stock.is_free(number)
}

/// Stores a message, where there is a row for it; else it is a stray. After NoMemory all is as
/// before.
pub(crate) fn keep<L: Drop, R: Rows<L>>(
    rows: &R,
    stock: &mut Stock<L>,
    history: &mut History<L>,
    stamped: Stamped<L>,
    number: u32,
    parcel: Parcel<L>,
) -> Result<(), NoMemory>
    requires packet { stamped.packet ≡ Message number parcel.sender parcel.content }
    requires most { number ≤ MOST_NUMBER }
    requires room { 0 < history.old.room }
    requires clock { history.old.clock < MOST_CLOCK }
    requires stamp { stamped.clock < MOST_CLOCK }
    ensures made { OnOk result ((lists : Lists L) →
        ArrivesBy (R.kind rows.now) (R.node rows.now) parcel.came stamped
        (acting stock.old history.old) (acting stock.new history.new) lists lists (λ d. d ≡ None)) }
    ensures err { OnErr result ((stock.new ≡ stock.old) × (history.new ≡ history.old)) }
{
    let link = parcel.came();
    if !is_taken(rows, stock, link, number, parcel.sender()) {
        log_stray(history, link, stamped);
        return Ok(());
    }
    stock.store(number, parcel)?;
    log_arrival(history, link, stamped);
    Ok(())
}
