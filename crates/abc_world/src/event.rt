/// What an actor does in an event.
#[derive(Clone, Copy, Debug, PartialEq, Eq)]
pub enum EventKind {
    /// An agent asks for a number.
    Ask,
    /// The first packet of a link arrives at the actor at which the link ends.
    Arrive {
        /// The number of the link.
        link: u32,
    },
    /// An agent takes the message of the next number.
    Take,
    /// An agent has its turn at the next number.
    Turn,
    /// A node passes the message of the next number on.
    Pass,
}

/// One event of a network: an actor, agents first, and what it does.
#[derive(Clone, Copy, Debug, PartialEq, Eq)]
pub struct Event {
    /// The number of the actor.
    pub actor: u32,
    /// What it does.
    pub kind: EventKind,
}

/// Whether an event was made.
#[derive(Clone, Copy, Debug, PartialEq, Eq)]
pub enum Moved {
    /// It was.
    Done,
    /// The network has no such event, and nothing changed.
    NotEnabled,
}
