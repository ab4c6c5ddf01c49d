ghost use Rattle.std.specs.Prelude.{◌≡◌, ◌+◌, ◌<◌, ◌≤◌, ◌^◌, length};
ghost use Rattle.std.specs.Prelude.{MatchBool, IfOk, OnOk, OnErr};
ghost use Rattle.std.specs.Bool.{OnFalse};
ghost use Rattle.abc_packet.specs.Outlets.{Lists, SameLinks, SameLists};
ghost use Rattle.abc_network.specs.Networks.{starting};
ghost use Rattle.abc_network.specs.Quiets.{AgentRests};
ghost use Rattle.abc_agent.specs.Journals.{SameEntries};
ghost use Rattle.abc_agent.specs.Ways.{HasLinksFrom};
ghost use Rattle.abc_agent.specs.Members.{SameMember, MadeAsk, MadeTake, MadeTurn, MadeTakeOrTurn, MadeArrival};
ghost use Rattle.abc_agent.specs.Conditions.{CanAsk, CanTake, CanTurn};
ghost use Rattle.abc_agent.specs.Settlings.{GoesOnBy, count_left, most_micro_steps};

use crate::journal::{Journal, arrival};
use crate::speech::Speech;
use crate::state::State;
use crate::ways::{links_out, way};
use abc_body::Body;
use abc_packet::{Deed, Log, MOST_CLOCK, NoMemory, Outlet, Packet, Stamped};
use abc_shape::Plan;
use std::alloc::Global;
use std::marker::Model;

/// An agent, which moves one body of a network.
///
/// Contracts see its plan, its number there, where its turns begin, and its state, clock and log.
#[derive(Drop)]
pub struct Agent<'p, B: Body> {
    plan: &'p Plan,
    number: u32,
    pick: u64,
    state: State<B>,
    journal: Journal<B::Label>,
}

impl<'p, B: Body> Model for Agent<'p, B> {
    ghost use Rattle.std.specs.Prelude.{◌<◌, ◌≤◌, ◌^◌};
    ghost use Rattle.abc_agent.specs.Members.{Member};

    ghost Value = { Member B B.Label };

    ghost view = { λ a. record {
      plan = a.plan.now;
      number = a.number;
      pick = a.pick;
      actor = record { state = a.state; clock = a.journal.clock; log = a.journal.entries };
    } };

    ghost invariant = { λ a.
        (a.number < a.plan.now.agents) × (a.pick < 2 ^ 32) × (a.state.packets ≤ a.journal.clock) };
}

/// Makes room for one entry, and for as many packets as there are links from an agent. After
/// NoMemory what is logged and what was sent is as before.
fn make_rooms<L, O: Outlet<L>>(
    plan: &Plan,
    journal: &mut Journal<L>,
    outlet: &mut O,
) -> Result<(), NoMemory>
    ensures same { SameEntries journal.old journal.new }
    ensures links { SameLinks (O.has_link outlet.old) (O.has_link outlet.new) }
    ensures lists { SameLists (O.lists outlet.old) (O.lists outlet.new) }
    ensures rest { O.rest outlet.new ≡ O.rest outlet.old }
    ensures entry { OnOk result (0 < journal.new.room) }
    ensures packet { OnOk result (0 < O.room_of outlet.new) }
{
    journal.make_room()?;
    outlet.make_room(links_out(plan))
}

impl<'p, B: Body> Agent<'p, B> {
    /// The agent of this number in a network of this plan, with its body, at the start. Its turns
    /// begin at `pick`. It takes no memory.
    pub fn new(alloc: Global, body: B, agent: u32, plan: &'p Plan, pick: u64) -> Agent<'p, B>
        requires agent { agent < plan.now.agents }
        requires pick { pick ≤ 4294967295 }
        requires sound { B.meaning.sound body }
        ensures plan { result.plan ≡ plan.now }
        ensures number { result.number ≡ agent }
        ensures pick { result.pick ≡ pick }
        ensures actor { result.actor ≡ starting body }
    {
        Agent {
            plan,
            number: agent,
            pick,
            state: State::new(alloc, body),
            journal: Journal::new(alloc),
        }
    }

    /// The last number that it took or turned; 0 at first.
    pub fn front(&self) -> u32
        ensures { result ≡ self.now.actor.state.front }
    {
        self.state.front()
    }

    /// The body that it moves.
    pub fn body(&self) -> &B
        ensures value { result.now ≡ self.now.actor.state.body }
        ensures sound { B.meaning.sound result.now }
    {
        self.state.body()
    }

    /// Its logical clock.
    pub fn clock(&self) -> u64
        ensures { result ≡ self.now.actor.clock }
    {
        self.journal.clock()
    }

    /// What it did, in order.
    pub fn log(&self) -> &Log<B::Label>
        ensures { result.now.entries ≡ self.now.actor.log }
    {
        self.journal.log()
    }

    /// Its log, for good.
    pub fn into_log(self) -> Log<B::Label>
        ensures { result.entries ≡ self.entry.actor.log }
    {
        self.journal.into_log()
    }

    /// The number of messages that wait for their turn.
    pub fn stored(&self) -> usize
        ensures { result ≡ length self.now.actor.state.stored }
    {
        self.state.stored()
    }

    /// Whether it can ask for a number: it has not asked, and its body can speak.
    pub fn can_ask(&self) -> bool
        ensures { let s = self.now.actor.state in
            MatchBool result (CanAsk B.meaning s) (¬ CanAsk B.meaning s) }
    {
        self.state.can_ask()
    }

    /// Whether it can take the message of the next number: that message waits.
    pub fn can_take(&self) -> bool
        ensures { let s = self.now.actor.state in MatchBool result (CanTake s) (¬ CanTake s) }
    {
        self.state.can_take()
    }

    /// Whether it can have its turn: the next number is its own.
    pub fn can_turn(&self) -> bool
        ensures { let s = self.now.actor.state in MatchBool result (CanTurn s) (¬ CanTurn s) }
    {
        self.state.can_turn()
    }

    /// Asks for a number, and answers true; false where it can't ask, and nothing changes. Nor does
    /// anything after NoMemory.
    pub fn ask<O: Outlet<B::Label>>(&mut self, outlet: &mut O) -> Result<bool, NoMemory>
        requires links { HasLinksFrom self.old.plan self.old.number (O.has_link outlet.old) }
        requires clock { self.old.actor.clock < MOST_CLOCK }
        ensures member { SameMember self.old self.new }
        ensures made { IfOk result (λ r. MatchBool r
            (MadeAsk B.meaning self.old self.new (O.lists outlet.old) (O.lists outlet.new))
            (¬ CanAsk B.meaning self.old.actor.state)) }
        ensures stays { IfOk result (λ r. OnFalse r
            ((self.new ≡ self.old) × SameLists (O.lists outlet.old) (O.lists outlet.new))) }
        ensures err { OnErr result
            ((self.new ≡ self.old) × SameLists (O.lists outlet.old) (O.lists outlet.new)) }
        ensures links { SameLinks (O.has_link outlet.old) (O.has_link outlet.new) }
        ensures rest { O.rest outlet.new ≡ O.rest outlet.old }
    {
        if !self.state.can_ask() {
            return Ok(false);
        }
        make_rooms(self.plan, &mut self.journal, outlet)?;
        let link = way(self.plan, self.number, self.state.packets());
        self.state.ask();
        let clock = self.journal.enter(Deed::Asked);
        let request = Packet::Request { agent: self.number };
        outlet.send(link, Stamped::new(clock, request));
        Ok(true)
    }

    /// A packet arrives on a link. Where the table has a row for it, that is made; else it is logged
    /// as a stray, and changes nothing else. After NoMemory all is as before.
    pub fn arrive(&mut self, link: u32, stamped: Stamped<B::Label>) -> Result<(), NoMemory>
        requires clock { self.old.actor.clock < MOST_CLOCK }
        requires stamp { stamped.clock < MOST_CLOCK }
        ensures member { SameMember self.old self.new }
        ensures made { OnOk result (MadeArrival B.meaning link stamped self.old self.new) }
        ensures err { OnErr result (self.new ≡ self.old) }
    {
        self.journal.make_room()?;
        let packet = stamped.packet()?;
        let fits = self.state.receive(self.number, packet)?;
        self.journal.enter(arrival(fits, link, stamped));
        Ok(())
    }

    /// Takes the message of the next number. After NoMemory all is as before.
    pub fn take(&mut self, alloc: Global) -> Result<(), NoMemory>
        requires can { CanTake self.old.actor.state }
        requires clock { self.old.actor.clock < MOST_CLOCK }
        ensures member { SameMember self.old self.new }
        ensures made { OnOk result ((lists : Lists B.Label) →
            MadeTake B.meaning self.old self.new lists lists) }
        ensures err { OnErr result (self.new ≡ self.old) }
    {
        self.journal.make_room()?;
        let (number, place) = self.state.take(alloc, self.pick)?;
        self.journal.enter(Deed::Took { number, place });
        Ok(())
    }

    /// Has its turn at the next number. After NoMemory all is as before.
    pub fn turn<O: Outlet<B::Label>>(
        &mut self,
        alloc: Global,
        outlet: &mut O,
    ) -> Result<(), NoMemory>
        requires can { CanTurn self.old.actor.state }
        requires links { HasLinksFrom self.old.plan self.old.number (O.has_link outlet.old) }
        requires clock { self.old.actor.clock < MOST_CLOCK }
        ensures member { SameMember self.old self.new }
        ensures made { OnOk result
            (MadeTurn B.meaning self.old self.new (O.lists outlet.old) (O.lists outlet.new)) }
        ensures err { OnErr result
            ((self.new ≡ self.old) × SameLists (O.lists outlet.old) (O.lists outlet.new)) }
        ensures links { SameLinks (O.has_link outlet.old) (O.has_link outlet.new) }
        ensures rest { O.rest outlet.new ≡ O.rest outlet.old }
    {
        make_rooms(self.plan, &mut self.journal, outlet)?;
        let link = way(self.plan, self.number, self.state.packets());
        let (number, speech) = self.state.turn(alloc, self.pick)?;
        let Speech {
            place,
            said,
            logged,
        } = speech;
        let clock = self.journal.enter(Deed::Turned {
            number,
            place,
            content: logged,
        });
        let message = Packet::Message {
            number,
            sender: self.number,
            content: said,
        };
        outlet.send(link, Stamped::new(clock, message));
        Ok(())
    }

    /// Takes the message of the next number, or has its turn there, and answers true; false where it
    /// can do neither, and nothing changes. Nor does anything after NoMemory.
    #[tactic(auto, using(crate::proofs::Taking::took, crate::proofs::Taking::turned))]
    pub fn take_or_turn<O: Outlet<B::Label>>(
        &mut self,
        alloc: Global,
        outlet: &mut O,
    ) -> Result<bool, NoMemory>
        requires links { HasLinksFrom self.old.plan self.old.number (O.has_link outlet.old) }
        requires clock { self.old.actor.clock < MOST_CLOCK }
        ensures member { SameMember self.old self.new }
        ensures made { IfOk result (λ r. MatchBool r
            (MadeTakeOrTurn B.meaning self.old self.new (O.lists outlet.old) (O.lists outlet.new))
            (¬ CanTake self.old.actor.state × ¬ CanTurn self.old.actor.state)) }
        ensures stays { IfOk result (λ r. OnFalse r
            ((self.new ≡ self.old) × SameLists (O.lists outlet.old) (O.lists outlet.new))) }
        ensures err { OnErr result
            ((self.new ≡ self.old) × SameLists (O.lists outlet.old) (O.lists outlet.new)) }
        ensures links { SameLinks (O.has_link outlet.old) (O.has_link outlet.new) }
        ensures rest { O.rest outlet.new ≡ O.rest outlet.old }
    {
        if self.state.can_take() {
            self.take(alloc)?;
            return Ok(true);
        }
        if self.state.can_turn() {
            self.turn(alloc, outlet)?;
            return Ok(true);
        }
        Ok(false)
    }

    /// Takes and turns until it can do neither.
    fn take_all<O: Outlet<B::Label>>(
        &mut self,
        alloc: Global,
        outlet: &mut O,
    ) -> Result<(), NoMemory>
        requires links { HasLinksFrom self.old.plan self.old.number (O.has_link outlet.old) }
        requires clock { self.old.actor.clock + count_left self.old < MOST_CLOCK }
        ensures member { SameMember self.old self.new }
        ensures goes_on { GoesOnBy B.meaning (count_left self.old) self.old self.new
            (O.lists outlet.old) (O.lists outlet.new) }
        ensures clock { self.new.actor.clock ≤ self.old.actor.clock + count_left self.old }
        ensures ok { OnOk result
            (¬ CanTake self.new.actor.state × ¬ CanTurn self.new.actor.state) }
        ensures links { SameLinks (O.has_link outlet.old) (O.has_link outlet.new) }
        ensures rest { O.rest outlet.new ≡ O.rest outlet.old }
    {
        'taking: while self.take_or_turn(alloc, outlet)? {}
        Ok(())
    }

    /// Takes and turns until it can do neither, and then asks if it can. After NoMemory the
    /// micro-steps that were made stand whole, and the one that was refused has left no mark.
    pub fn settle<O: Outlet<B::Label>>(
        &mut self,
        alloc: Global,
        outlet: &mut O,
    ) -> Result<(), NoMemory>
        requires links { HasLinksFrom self.old.plan self.old.number (O.has_link outlet.old) }
        requires clock { self.old.actor.clock + most_micro_steps self.old ≤ MOST_CLOCK }
        ensures member { SameMember self.old self.new }
        ensures goes_on { GoesOnBy B.meaning (most_micro_steps self.old) self.old self.new
            (O.lists outlet.old) (O.lists outlet.new) }
        ensures ok { OnOk result (AgentRests B.meaning self.new.actor.state) }
        ensures links { SameLinks (O.has_link outlet.old) (O.has_link outlet.new) }
        ensures rest { O.rest outlet.new ≡ O.rest outlet.old }
    {
        self.take_all(alloc, outlet)?;
        self.ask(outlet)?;
        Ok(())
    }
}

fn crosses_threads<T: Send>() {}

/// An agent may go to another thread with its body.
fn agents_cross_threads<'p, B: Body>() {
    crosses_threads::<Agent<'p, B>>();
}
