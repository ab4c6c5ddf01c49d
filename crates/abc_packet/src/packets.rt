ghost use Rattle.std.specs.Prelude.{◌≡◌, IfOk};

use abc_value::{Grant, NoMemory, Owner};

/// What a message says.
#[derive(Drop)]
pub enum Content<L> {
    /// Its sender said this label.
    Said(Owner<L>),
    /// Its sender had nothing to say at its number.
    Empty,
}

/// What goes over a link.
#[derive(Drop)]
pub enum Packet<L> {
    /// An agent asks for a sequence number.
    Request {
        /// The agent that asks.
        agent: u32,
    },
    /// The answer to an agent's request.
    Reply {
        /// The agent that asked.
        agent: u32,
        /// The number that it has, or that there is none left.
        grant: Grant,
    },
    /// What an agent said at its number.
    Message {
        /// The sequence number.
        number: u32,
        /// The agent that had this number.
        sender: u32,
        /// What it said.
        content: Content<L>,
    },
}

impl<L> Content<L> {
    /// The same content, with one more owner of its label.
    pub fn copy(&self) -> Result<Content<L>, NoMemory>
        ensures { IfOk result (λ c. c ≡ self.now) }
    {
        match self {
            Content::Said(label) => Ok(Content::Said(label.copy()?)),
            Content::Empty => Ok(Content::Empty),
        }
    }
}
