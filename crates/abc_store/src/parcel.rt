ghost use Rattle.std.specs.Prelude.{◌≡◌, ◌≤◌, IfOk};
ghost use Rattle.abc_packet.specs.declared.packets.Packet.TheVariants.{Message};

use abc_packet::{Content, MOST_CLOCK, MOST_NUMBER, NoMemory, Packet, Stamped};
use std::marker::Model;

/// A stored message. Contracts see it as the table does: who said it, what, and the link on which
/// it came.
#[derive(Drop)]
pub(crate) struct Parcel<L> {
    sender: u32,
    content: Content<L>,
    came: u32,
}

impl<L> Model for Parcel<L> {
    ghost use Rattle.abc_network.specs.Stores.{Item};

    ghost Value = { Item L };

    ghost view = { λ p. record { sender = p.sender; content = p.content; came = p.came } };
}

impl<L> Parcel<L> {
    /// What this sender said, which came on this link.
    pub(crate) fn new(sender: u32, content: Content<L>, came: u32) -> Parcel<L>
        ensures { result ≡ record { sender = sender; content = content; came = came } }
    {
        Parcel {
            sender,
            content,
            came,
        }
    }

    /// Who said it.
    pub(crate) fn sender(&self) -> u32
        ensures { result ≡ self.now.sender }
    {
        self.sender
    }

    /// The link on which it came.
    pub(crate) fn came(&self) -> u32
        ensures { result ≡ self.now.came }
    {
        self.came
    }

    /// The message as it goes on, with one more owner of its label.
    pub(crate) fn message(&self, number: u32, clock: u64) -> Result<Stamped<L>, NoMemory>
        requires number { number ≤ MOST_NUMBER }
        requires clock { clock ≤ MOST_CLOCK }
        ensures { IfOk result (λ s. s ≡ record {
          clock = clock;
          packet = Message number self.now.sender self.now.content;
        }) }
    {
        let content = self.content.copy()?;
        let packet = Packet::Message {
            number,
            sender: self.sender,
            content,
        };
        Ok(Stamped::new(clock, packet))
    }
}
