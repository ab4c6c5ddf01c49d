//! The state of an agent: what its table speaks of, beside its clock and its log.
ghost use Rattle.std.specs.Prelude.{◌≡◌, ℕ, ◌+◌, ◌<◌, ◌≤◌, ◌^◌, [], ◌∷◌, length, None};
ghost use Rattle.std.specs.Prelude.{MatchBool, IfOk, OnErr};
ghost use Rattle.std.specs.Bool.{OnFalse};
ghost use Rattle.abc_packet.specs.declared.packets.Packet.TheVariants.{Request, Message};
ghost use Rattle.abc_packet.specs.Packets.{packet_number, grant_number};
ghost use Rattle.abc_wait.specs.Waits.{item_beside};
ghost use Rattle.abc_network.specs.Agents.{AgentState, Idle, Waiting, AgentTakes, IsGranted};
ghost use Rattle.abc_network.specs.Agents.{StoresMessage, Asks, Takes, Turns};
ghost use Rattle.abc_agent.specs.Conditions.{CanAsk, CanTake, CanTurn};

use crate::speech::{Speech, hear, speak};
use crate::standing::Standing;
use abc_body::Body;
use abc_packet::{Content, Grant, MOST_NUMBER, NoMemory, Packet};
use abc_wait::WaitList;
use std::alloc::Global;
use std::marker::Model;

/// The state of an agent. Contracts see it as the table does.
#[derive(Drop)]
pub(crate) struct State<B: Body> {
    body: B,
    front: u32,
    standing: Standing,
    waits: WaitList<Content<B::Label>>,
    packets: u64,
}

impl<B: Body> Model for State<B> {
    ghost use Rattle.abc_network.specs.Agents.{AgentState};

    ghost Value = { AgentState B B.Label };

    ghost use Rattle.abc_agent.specs.Standings.{asking_of};
    ghost use Rattle.abc_agent.specs.States.{IsKept};

    ghost view = { λ s. record {
      body = s.body;
      front = s.front;
      asking = asking_of s.standing;
      stored = s.waits.items;
      packets = s.packets;
    } };

    ghost invariant = { λ s. B.meaning.sound s.body × IsKept s.front s.standing s.waits };
}

impl<B: Body> State<B> {
    /// The state in which an agent with this body starts. It takes no memory.
    pub(crate) fn new(alloc: Global, body: B) -> State<B>
        requires { B.meaning.sound body }
        ensures { result ≡
            record { body = body; front = 0; asking = Idle; stored = []; packets = 0 } }
    {
        State {
            body,
            front: 0,
            standing: Standing::NotAsking,
            waits: WaitList::new(alloc, 1),
            packets: 0,
        }
    }

    /// The body.
    pub(crate) fn body(&self) -> &B
        ensures value { result.now ≡ self.now.body }
        ensures sound { B.meaning.sound result.now }
    {
        &self.body
    }

    /// The last number that was taken or turned; 0 at first.
    pub(crate) fn front(&self) -> u32
        ensures value { result ≡ self.now.front }
        ensures most { result ≤ MOST_NUMBER }
    {
        self.front
    }

    /// How many packets were sent.
    pub(crate) fn packets(&self) -> u64
        ensures { result ≡ self.now.packets }
    {
        self.packets
    }

    /// How many messages wait.
    pub(crate) fn stored(&self) -> usize
        ensures { result ≡ length self.now.stored }
    {
        self.waits.len()
    }

    /// Whether the agent can ask.
    pub(crate) fn can_ask(&self) -> bool
        ensures { MatchBool result (CanAsk B.meaning self.now) (¬ CanAsk B.meaning self.now) }
    {
        matches!(self.standing, Standing::NotAsking) && self.body.can_speak()
    }

    /// Whether the message of the next number waits.
    pub(crate) fn can_take(&self) -> bool
        ensures yes_or_no { MatchBool result (CanTake self.now) (¬ CanTake self.now) }
        ensures no { OnFalse result (item_beside self.now.stored (self.now.front + 1) ≡ None) }
    {
        self.waits.has(self.front + 1)
    }

    /// Whether the next number is the agent's own.
    pub(crate) fn can_turn(&self) -> bool
        ensures { MatchBool result (CanTurn self.now) (¬ CanTurn self.now) }
    {
        matches!(self.standing, Standing::HasNumber(number) if number == self.front + 1)
    }

    /// The agent has asked.
    pub(crate) fn ask(&mut self)
        requires can { CanAsk B.meaning self.old }
        requires packets { self.old.packets < 2 ^ 63 }
        ensures { (way : ℕ → ℕ) (i : ℕ) →
            Asks B.meaning way i self.old ((way self.old.packets, Request i) ∷ []) self.new }
    {
        self.standing = Standing::HasAsked;
        self.packets += 1;
    }

    /// The message of the next number is heard, and waits no longer. It answers that number and the
    /// place. After NoMemory the state is as before.
    pub(crate) fn take(&mut self, alloc: Global, pick: u64) -> Result<(u32, Option<u32>), NoMemory>
        requires can { CanTake self.old }
        requires pick { pick < 2 ^ 32 }
        ensures took { IfOk result (λ r. Takes B.meaning pick self.old r.0 r.1 [] self.new) }
        ensures err { OnErr result (self.new ≡ self.old) }
    {
        let number = self.front + 1;
        let turn = pick + u64::from(self.front);
        let content = self.waits.get(number).unwrap();
        let place = hear(alloc, &mut self.body, content, turn)?;
        self.waits.take(number);
        self.front = number;
        Ok((number, place))
    }

    /// The agent has its turn at the next number, which it answers with what was said. After NoMemory
    /// the state is as before.
    pub(crate) fn turn(
        &mut self,
        alloc: Global,
        pick: u64,
    ) -> Result<(u32, Speech<B::Label>), NoMemory>
        requires can { CanTurn self.old }
        requires pick { pick < 2 ^ 32 }
        requires packets { self.old.packets < 2 ^ 63 }
        ensures turned { IfOk result (λ r. (way : ℕ → ℕ) (i : ℕ) →
            Turns B.meaning pick way i self.old r.0 r.1.place r.1.said
            ((way self.old.packets, Message r.0 i r.1.said) ∷ []) self.new) }
        ensures number { IfOk result (λ r. r.0 ≤ MOST_NUMBER) }
        ensures logged { IfOk result (λ r. r.1.logged ≡ r.1.said) }
        ensures err { OnErr result (self.new ≡ self.old) }
    {
        let number = self.front + 1;
        let turn = pick + u64::from(self.front);
        let speech = speak(alloc, &mut self.body, turn)?;
        self.front = number;
        self.standing = Standing::NotAsking;
        self.packets += 1;
        Ok((number, speech))
    }

    /// Takes an answer to the agent's request, where it has asked and the number is a free one above
    /// the front. Else it answers false, and nothing changes.
    fn take_grant(&mut self, grant: Grant) -> bool
        requires { grant_number grant ≤ MOST_NUMBER }
        ensures fits { MatchBool result
            ((self.old.asking ≡ Waiting) × IsGranted self.old grant self.new)
            ((t : AgentState B B.Label) →
            (self.old.asking ≡ Waiting) → ¬ IsGranted self.old grant t) }
        ensures stays { OnFalse result (self.new ≡ self.old) }
    {
        match (self.standing, grant) {
            (Standing::HasAsked, Grant::Number(number))
                if number > self.front && !self.waits.has(number) => {
                self.standing = Standing::HasNumber(number);
                true
            }
            (Standing::HasAsked, Grant::Closed) => {
                self.standing = Standing::FoundClosed;
                true
            }
            _ => false,
        }
    }

    /// Stores a message under its number, where that is a free one above the front and not the
    /// agent's own. Else it answers false, and nothing changes; nor does it after NoMemory.
    fn store(&mut self, number: u32, content: Content<B::Label>) -> Result<bool, NoMemory>
        requires { number ≤ MOST_NUMBER }
        ensures fits { IfOk result (λ r. MatchBool r
            (StoresMessage self.old number content self.new)
            ((t : AgentState B B.Label) → ¬ StoresMessage self.old number content t)) }
        ensures stays { IfOk result (λ r. OnFalse r (self.new ≡ self.old)) }
        ensures err { OnErr result (self.new ≡ self.old) }
    {
        let is_own = matches!(self.standing, Standing::HasNumber(own) if own == number);
        if number <= self.front || is_own || self.waits.has(number) {
            return Ok(false);
        }
        self.waits.store(number, content)?;
        Ok(true)
    }

    /// Takes a packet that arrives at this agent, where its table has a row for it. Else it answers
    /// false, and nothing changes; nor does it after NoMemory.
    pub(crate) fn receive(&mut self, agent: u32, packet: Packet<B::Label>) -> Result<bool, NoMemory>
        requires { packet_number packet ≤ MOST_NUMBER }
        ensures fits { IfOk result (λ r. MatchBool r
            (AgentTakes agent self.old packet self.new)
            ((t : AgentState B B.Label) → ¬ AgentTakes agent self.old packet t)) }
        ensures stays { IfOk result (λ r. OnFalse r (self.new ≡ self.old)) }
        ensures err { OnErr result (self.new ≡ self.old) }
    {
        match packet {
            Packet::Request { .. } => Ok(false),
            Packet::Reply {
                agent: asker,
                grant,
            } => Ok(asker == agent && self.take_grant(grant)),
            Packet::Message {
                number,
                content,
                ..
            } => self.store(number, content),
        }
    }
}
