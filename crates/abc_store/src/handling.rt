/// What a node does with a request or a reply.
#[derive(Clone, Copy, Drop)]
pub enum Handling {
    /// It draws, and replies to the agent.
    Answers {
        /// The agent that asks.
        agent: u32,
        /// The link towards it.
        back: u32,
    },
    /// It sends the packet on.
    SendsOn {
        /// The link on which it goes on.
        on: u32,
    },
    /// Nothing: the packet is a stray.
    Nothing,
}
