//! What a node sends where it passes a message on.
ghost use Rattle.std.specs.Prelude.{◌≡◌, ◌≤◌, IfOk};
ghost use Rattle.abc_packet.specs.declared.packets.Packet.TheVariants.{Message};
ghost use Rattle.abc_network.specs.Stores.{to_each};
ghost use Rattle.abc_logs.specs.MicroSteps.{stamped_with};
ghost use Rattle.abc_history.specs.Outs.{AreOnLinks};
ghost use Rattle.abc_store.specs.Storing.{CanPass, AreToPass};

use crate::parcel::Parcel;
use crate::rows::Rows;
use crate::stock::Stock;
use abc_packet::{MOST_CLOCK, MOST_NUMBER, NoMemory, Stamped};
use std::alloc::Global;
use std::collections::VecDeque;

/// A copy of a message for each of these links, each with its owner of the label.
fn copies<L: Drop>(
    alloc: Global,
    links: &[u32],
    parcel: &Parcel<L>,
    number: u32,
    clock: u64,
) -> Result<VecDeque<(u32, Stamped<L>)>, NoMemory>
    requires number { number ≤ MOST_NUMBER }
    requires clock { clock ≤ MOST_CLOCK }
    ensures { let message = Message number parcel.now.sender parcel.now.content in
        IfOk result (λ q. q.items ≡ stamped_with clock (to_each links.now message)) }
{
    let mut ready = VecDeque::new(alloc);
    'copying: for link in links {
        let stamped = parcel.message(number, clock)?;
        ready.push_back((*link, stamped))?;
    }
    Ok(ready)
}

/// The copies of the message that is passed next, for the links on which it goes on.
pub(crate) fn copies_to_pass<L: Drop, R: Rows<L>>(
    alloc: Global,
    rows: &R,
    stock: &Stock<L>,
    clock: u64,
) -> Result<VecDeque<(u32, Stamped<L>)>, NoMemory>
    requires can { CanPass stock.now }
    requires clock { clock ≤ MOST_CLOCK }
    ensures ready { IfOk result (λ q.
        AreToPass (R.kind rows.now) (R.node rows.now) stock.now clock q.items) }
    ensures leave { IfOk result (λ q. AreOnLinks (R.leaves rows.now) q.items) }
{
    let (number, parcel) = stock.first();
    let links = rows.outs(alloc, parcel.sender(), parcel.came())?;
    copies(alloc, links.as_slice(), parcel, number, clock)
}
