ghost use Rattle.std.specs.Prelude.{◌≡◌, IfOk};
ghost use Rattle.abc_packet.specs.Carried.{packet_of};

use crate::packets::{Content, Packet};
use abc_value::{Grant, NoMemory, Owner};

/// What a packet carries beside the agent that it names. It is the same in less room: what is sent
/// is logged at both ends, and a run has millions of entries.
#[derive(Drop)]
pub(crate) enum Carried<L> {
    /// A request.
    Asks,
    /// A reply with this number.
    Grants(u32),
    /// A reply that there is no number left.
    Closes,
    /// A message of this number with a label.
    Says(u32, Owner<L>),
    /// An empty message of this number.
    SaysNothing(u32),
}

/// The agent that a packet names, and what it carries beside.
pub(crate) fn carried_in<L>(packet: Packet<L>) -> (u32, Carried<L>)
    ensures { packet_of result.0 result.1 ≡ packet }
{
    match packet {
        Packet::Request { agent } => (agent, Carried::Asks),
        Packet::Reply {
            agent,
            grant: Grant::Number(number),
        } => (agent, Carried::Grants(number)),
        Packet::Reply {
            agent,
            grant: Grant::Closed,
        } => (agent, Carried::Closes),
        Packet::Message {
            number,
            sender,
            content: Content::Said(label),
        } => (sender, Carried::Says(number, label)),
        Packet::Message {
            number,
            sender,
            content: Content::Empty,
        } => (sender, Carried::SaysNothing(number)),
    }
}

impl<L> Carried<L> {
    /// The packet of an agent that carries this, with one more owner of its label.
    pub(crate) fn packet(&self, agent: u32) -> Result<Packet<L>, NoMemory>
        ensures { IfOk result (λ p. p ≡ packet_of agent self.now) }
    {
        match self {
            Carried::Asks => Ok(Packet::Request { agent }),
            Carried::Grants(number) => {
                let grant = Grant::Number(*number);
                Ok(Packet::Reply { agent, grant })
            }
            Carried::Closes => {
                let grant = Grant::Closed;
                Ok(Packet::Reply { agent, grant })
            }
            Carried::Says(number, label) => {
                let content = Content::Said(label.copy()?);
                Ok(Packet::Message {
                    number: *number,
                    sender: agent,
                    content,
                })
            }
            Carried::SaysNothing(number) => {
                let content = Content::Empty;
                Ok(Packet::Message {
                    number: *number,
                    sender: agent,
                    content,
                })
            }
        }
    }

    /// The same, with one more owner of its label.
    pub(crate) fn copy(&self) -> Result<Carried<L>, NoMemory>
        ensures { IfOk result (λ c. c ≡ self.now) }
    {
        match self {
            Carried::Asks => Ok(Carried::Asks),
            Carried::Grants(number) => Ok(Carried::Grants(*number)),
            Carried::Closes => Ok(Carried::Closes),
            Carried::Says(number, label) => Ok(Carried::Says(*number, label.copy()?)),
            Carried::SaysNothing(number) => Ok(Carried::SaysNothing(*number)),
        }
    }
}
