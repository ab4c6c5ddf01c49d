ghost use Rattle.std.specs.Prelude.{◌≡◌, ◌+◌, ◌-◌, ◌≤◌, ◌<◌, [], ◌∷◌, IfOk, vec_len, vec_capacity};
ghost use Rattle.abc_packet.specs.Outlets.{SameLinks, Sends, sent_on};
ghost use Rattle.abc_packet.specs.Packets.{packet_number};
ghost use Rattle.abc_shape.specs.declared.shape.Shape.TheVariants.{Cluster};
ghost use Rattle.abc_shape.specs.Plans.{layout_of};

use abc_agent::{Agent, Content, Deed, NoMemory, Outlet, Packet, Plan, Stamped};
use abc_body::Tally;
use abc_packet::{Grant, MOST_CLOCK, MOST_NUMBER, Owner};
use abc_shape::Shape;
use std::alloc::Global;
use std::test::Fail;

/// An outlet that has every link, and keeps what was sent.
#[derive(Drop)]
struct Everywhere {
    sends: Vec<(u32, Stamped<u32>)>,
}

impl Everywhere {
    fn new(alloc: Global) -> Everywhere {
        Everywhere {
            sends: Vec::new(alloc),
        }
    }
}

impl Outlet<u32> for Everywhere {
    type Rest = ();

    ghost has_link = { λ _ _. Unit {0} };

    ghost lists = { λ o link. sent_on link o.sends.items };

    ghost room_of = { λ o. vec_capacity o.sends - vec_len o.sends };

    ghost rest = { λ _. tt };

    fn room(&self) -> usize {
        self.sends.capacity() - self.sends.len()
    }

    fn make_room(&mut self, count: usize) -> Result<(), NoMemory> {
        self.sends.reserve(count)?;
        Ok(())
    }

    #[tactic(auto, using(abc_packet::proofs::Sendings::sent_after_append))]
    fn send(&mut self, link: u32, stamped: Stamped<u32>)
        requires room { 0 < vec_capacity self.old.sends - vec_len self.old.sends }
        ensures links { SameLinks (λ k. Unit {0}) (λ k. Unit {0}) }
        ensures lists { Sends (λ k. sent_on k self.old.sends.items) ((link, stamped) ∷ [])
            (λ k. sent_on k self.new.sends.items) }
        ensures room { vec_capacity self.old.sends - vec_len self.old.sends
            ≤ (vec_capacity self.new.sends - vec_len self.new.sends) + 1 }
    {
        self.sends.push_reserved((link, stamped));
    }
}

/// A cluster of two agents and one node, with links 0 to 3; after NoMemory it is made again.
fn small_plan(alloc: Global) -> Result<Plan, NoMemory>
    ensures { IfOk result (λ p. p ≡ layout_of Cluster 2 1) }
{
    match Plan::new(alloc, Shape::Cluster, 2, 1) {
        Ok(plan) => Ok(plan),
        Err(_) => Plan::new(alloc, Shape::Cluster, 2, 1),
    }
}

/// A message of the other agent, which says 3.
fn message(alloc: Global, number: u32) -> Result<Packet<u32>, NoMemory>
    ensures { IfOk result (λ p. packet_number p ≡ number) }
{
    let content = Content::Said(Owner::new(alloc, 3)?);
    Ok(Packet::Message {
        number,
        sender: 1,
        content,
    })
}

/// An agent beside its outlet.
#[derive(Drop)]
struct Seat<'p> {
    agent: Agent<'p, Tally>,
    outlet: Everywhere,
}

impl<'p> Seat<'p> {
    /// Agent 0 with a tally of this count.
    fn new(alloc: Global, plan: &'p Plan, count: u32) -> Seat<'p>
        requires plan { plan.now ≡ layout_of Cluster 2 1 }
        requires count { count ≤ 9 }
    {
        Seat {
            agent: Agent::new(alloc, Tally::new(count), 0, plan, 0),
            outlet: Everywhere::new(alloc),
        }
    }

    /// A packet arrives from the node.
    fn hand(&mut self, clock: u64, packet: Packet<u32>) -> Result<(), NoMemory>
        requires clock { clock < MOST_CLOCK }
        requires number { packet_number packet ≤ MOST_NUMBER }
    {
        if self.agent.clock() < MOST_CLOCK {
            self.agent.arrive(1, Stamped::new(clock, packet))
        } else {
            Ok(())
        }
    }

    /// A message of the other agent arrives.
    fn hand_message(&mut self, alloc: Global, clock: u64, number: u32) -> Result<(), NoMemory>
        requires clock { clock < MOST_CLOCK }
        requires number { number ≤ MOST_NUMBER }
    {
        let packet = message(alloc, number)?;
        self.hand(clock, packet)
    }

    /// It arrives; after NoMemory it does so again.
    fn hand_again(&mut self, alloc: Global, clock: u64, number: u32) -> Result<(), NoMemory>
        requires clock { clock < MOST_CLOCK }
        requires number { number ≤ MOST_NUMBER }
    {
        match self.hand_message(alloc, clock, number) {
            Ok(()) => Ok(()),
            Err(_) => self.hand_message(alloc, clock, number),
        }
    }

    /// This number is granted; after NoMemory it is granted again.
    fn grant_again(&mut self, number: u32) -> Result<(), NoMemory>
        requires { number ≤ MOST_NUMBER }
    {
        let grant = Grant::Number(number);
        match self.hand(2, Packet::Reply { agent: 0, grant }) {
            Ok(()) => Ok(()),
            Err(_) => self.hand(2, Packet::Reply { agent: 0, grant }),
        }
    }

    fn ask(&mut self) -> Result<bool, NoMemory> {
        if self.agent.clock() < MOST_CLOCK {
            self.agent.ask(&mut self.outlet)
        } else {
            Ok(false)
        }
    }

    /// The agent asks; after NoMemory it does so again.
    fn ask_again(&mut self) -> Result<bool, NoMemory> {
        match self.ask() {
            Ok(asked) => Ok(asked),
            Err(_) => self.ask(),
        }
    }

    fn take_or_turn(&mut self, alloc: Global) -> Result<bool, NoMemory> {
        if self.agent.clock() < MOST_CLOCK {
            self.agent.take_or_turn(alloc, &mut self.outlet)
        } else {
            Ok(false)
        }
    }

    /// The agent takes or turns; after NoMemory it does so again.
    fn take_or_turn_again(&mut self, alloc: Global) -> Result<bool, NoMemory> {
        match self.take_or_turn(alloc) {
            Ok(moved) => Ok(moved),
            Err(_) => self.take_or_turn(alloc),
        }
    }

    /// The agent settles. Its front, its messages that wait, its clock and its count are answered.
    fn settle(&mut self, alloc: Global) -> Result<(u32, usize, u64, u32), NoMemory> {
        if self.agent.clock() < 1000 && self.agent.stored() < 1000 {
            self.agent.settle(alloc, &mut self.outlet)?;
        }
        Ok(self.standing())
    }

    /// Its front, its messages that wait, its clock and its count.
    fn standing(&self) -> (u32, usize, u64, u32) {
        let agent = &self.agent;
        (
            agent.front(),
            agent.stored(),
            agent.clock(),
            agent.body().count(),
        )
    }

    /// The place at which the entry took this number; None where it is another.
    fn took(&self, entry: usize, at: u32) -> Option<u32> {
        match self.agent.log().entries().get(entry)?.deed {
            Deed::Took { number, place } if number == at => place,
            _ => None,
        }
    }

    /// Whether the entry is a stray.
    fn strayed(&self, entry: usize) -> bool {
        match self.agent.log().entries().get(entry) {
            Some(entry) => matches!(entry.deed, Deed::Stray { link: 1, .. }),
            None => false,
        }
    }

    /// What the second packet says for this number, which leaves on link 0: 100 where it is empty.
    fn said(&self, at: u32) -> Result<Option<u32>, NoMemory> {
        match self.outlet.sends.get(1) {
            Some((0, stamped)) => Ok(said_in(&stamped.packet()?, at)),
            _ => Ok(None),
        }
    }
}

/// The count that a message of agent 0 for this number says; 100 where it is empty.
fn said_in(packet: &Packet<u32>, at: u32) -> Option<u32> {
    match packet {
        Packet::Message {
            number,
            sender: 0,
            content,
        } if *number == at => match content {
            Content::Said(label) => Some(*label.get()),
            Content::Empty => Some(100),
        },
        _ => None,
    }
}

#[test]
fn a_number_that_waits_is_not_stored_again(rt: HostRuntime) -> Result<(), Fail> {
    let alloc = rt.alloc();
    let plan = small_plan(alloc)?;
    let mut seat = Seat::new(alloc, &plan, 9);
    seat.hand_message(alloc, 5, 2)?;
    assert_eq!(rt; seat.settle(alloc)?, (0, 1, 6, 9));
    seat.hand_message(alloc, 6, 2)?;
    assert!(rt; seat.strayed(1));
    seat.hand_message(alloc, 4, 1)?;
    assert_eq!(rt; seat.settle(alloc)?, (2, 0, 10, 9));
    assert!(rt;
        seat.outlet.sends.is_empty(),
        "a body that can't speak does not ask"
    );
    Ok(())
}

#[test]
fn what_is_said_is_what_can_be_said_at_the_turn(rt: HostRuntime) -> Result<(), Fail> {
    let alloc = rt.alloc();
    let plan = small_plan(alloc)?;
    let mut seat = Seat::new(alloc, &plan, 7);
    assert!(rt; seat.ask()?);
    assert!(rt; !seat.ask()?, "it has asked");
    seat.grant_again(2)?;
    seat.hand_message(alloc, 5, 1)?;
    assert_eq!(rt; seat.settle(alloc)?, (2, 0, 8, 9));
    assert_eq!(rt; seat.said(2)?, Some(8), "its count after message 1");
    Ok(())
}

#[test]
fn where_nothing_can_be_said_an_empty_message_is_sent(rt: HostRuntime) -> Result<(), Fail> {
    let alloc = rt.alloc();
    let plan = small_plan(alloc)?;
    let mut seat = Seat::new(alloc, &plan, 8);
    assert_eq!(rt; seat.settle(alloc)?, (0, 0, 1, 8), "it has asked");
    seat.grant_again(2)?;
    seat.hand_message(alloc, 5, 1)?;
    assert_eq!(rt; seat.settle(alloc)?, (2, 0, 8, 9));
    assert_eq!(rt; seat.said(2)?, Some(100), "an empty message");
    Ok(())
}

/// Every step here is made again where it was refused, so this also passes where any one request
/// for memory is refused.
#[test]
fn numbers_are_taken_in_order(rt: HostRuntime) -> Result<(), Fail> {
    let alloc = rt.alloc();
    let plan = small_plan(alloc)?;
    let mut seat = Seat::new(alloc, &plan, 0);
    seat.hand_again(alloc, 8, 2)?;
    assert!(rt; !seat.take_or_turn_again(alloc)?, "number 1 is not here");
    seat.hand_again(alloc, 7, 1)?;
    assert!(rt; seat.take_or_turn_again(alloc)? && seat.take_or_turn_again(alloc)?);
    assert_eq!(rt; (seat.took(2, 1), seat.took(3, 2)), (Some(0), Some(1)));
    assert_eq!(rt; seat.standing(), (2, 0, 12, 2));
    Ok(())
}

/// So does this.
#[test]
fn a_turn_that_was_refused_is_made_again(rt: HostRuntime) -> Result<(), Fail> {
    let alloc = rt.alloc();
    let plan = small_plan(alloc)?;
    let mut seat = Seat::new(alloc, &plan, 7);
    assert!(rt; seat.ask_again()?);
    seat.grant_again(1)?;
    assert!(rt; seat.take_or_turn_again(alloc)?);
    assert_eq!(rt; seat.standing(), (1, 0, 4, 8));
    assert_eq!(rt; seat.outlet.sends.len(), 2);
    Ok(())
}
