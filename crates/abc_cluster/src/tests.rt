ghost use Rattle.std.specs.Prelude.{◌≡◌, ◌+◌, ◌-◌, ◌≤◌, ◌<◌, [], ◌∷◌, IfOk, vec_len, vec_capacity};
ghost use Rattle.abc_packet.specs.Outlets.{SameLinks, Sends, sent_on};
ghost use Rattle.abc_packet.specs.Packets.{packet_number};
ghost use Rattle.abc_shape.specs.declared.shape.Shape.TheVariants.{Cluster};
ghost use Rattle.abc_shape.specs.Plans.{layout_of};

use super::*;
use abc_number::{MOST_LIMIT, PlainCounter};
use abc_packet::{Content, Deed, Grant, MOST_CLOCK, Owner, Packet};
use abc_shape::Shape;
use std::alloc::Global;
use std::test::Fail;

/// An outlet that has every link, and keeps what was sent.
#[derive(Drop)]
struct Everywhere {
    sends: Vec<(u32, Stamped<u32>)>,
}

impl Outlet<u32> for Everywhere {
    type Rest = ();

    ghost has_link = { λ _ _. Unit {0} };

    ghost lists = { λ o link. sent_on link o.sends.items };

    ghost room_of = { λ o. vec_capacity o.sends - vec_len o.sends };

    ghost rest = { λ _. tt };

    fn room(&self) -> usize {
        self.sends.capacity() - self.sends.len()
    }

    fn make_room(&mut self, count: usize) -> Result<(), NoMemory> {
        self.sends.reserve(count)?;
        Ok(())
    }

    #[tactic(auto, using(abc_packet::proofs::Sendings::sent_after_append))]
    fn send(&mut self, link: u32, stamped: Stamped<u32>)
        requires room { 0 < vec_capacity self.old.sends - vec_len self.old.sends }
        ensures links { SameLinks (λ k. Unit {0}) (λ k. Unit {0}) }
        ensures lists { Sends (λ k. sent_on k self.old.sends.items) ((link, stamped) ∷ [])
            (λ k. sent_on k self.new.sends.items) }
        ensures room { vec_capacity self.old.sends - vec_len self.old.sends
            ≤ (vec_capacity self.new.sends - vec_len self.new.sends) + 1 }
    {
        self.sends.push_reserved((link, stamped));
    }
}

/// A cluster of three agents and two nodes, with links 0 to 11; after NoMemory it is made again.
fn small_plan(alloc: Global) -> Result<Plan, NoMemory>
    ensures { IfOk result (λ p. p ≡ layout_of Cluster 3 2) }
{
    match Plan::new(alloc, Shape::Cluster, 3, 2) {
        Ok(plan) => Ok(plan),
        Err(_) => Plan::new(alloc, Shape::Cluster, 3, 2),
    }
}

/// What comes to the node.
#[derive(Clone, Copy)]
enum Comes {
    /// The request of this agent.
    Request(u32),
    /// A reply to this agent, that there is no number left.
    Reply(u32),
    /// Message 1 of this sender, which says 7.
    Message(u32),
}

/// The packet that comes.
fn packet_of(alloc: Global, comes: Comes) -> Result<Packet<u32>, NoMemory>
    ensures { IfOk result (λ p. packet_number p ≤ 1) }
{
    match comes {
        Comes::Request(agent) => Ok(Packet::Request { agent }),
        Comes::Reply(agent) => {
            let grant = Grant::Closed;
            Ok(Packet::Reply { agent, grant })
        }
        Comes::Message(sender) => {
            let content = Content::Said(Owner::new(alloc, 7)?);
            Ok(Packet::Message {
                number: 1,
                sender,
                content,
            })
        }
    }
}

/// A node beside its counter and its outlet.
#[derive(Drop)]
struct Desk<'p> {
    node: ClusterNode<'p, u32>,
    numbers: PlainCounter,
    outlet: Everywhere,
}

impl<'p> Desk<'p> {
    /// Node 1, with a counter of this limit. Its links from the agents are 2, 6 and 10, and 3, 7
    /// and 11 lead back.
    fn new(alloc: Global, plan: &'p Plan, limit: u32) -> Desk<'p>
        requires plan { plan.now ≡ layout_of Cluster 3 2 }
        requires some { 0 < limit }
        requires bounded { limit ≤ MOST_LIMIT }
    {
        Desk {
            node: ClusterNode::new(alloc, 1, plan),
            numbers: PlainCounter::new(limit),
            outlet: Everywhere {
                sends: Vec::new(alloc),
            },
        }
    }

    /// A packet arrives, sent at a clock.
    fn hand(&mut self, alloc: Global, link: u32, clock: u64, comes: Comes) -> Result<(), NoMemory>
        requires { clock < MOST_CLOCK }
    {
        let packet = packet_of(alloc, comes)?;
        if self.node.clock() < MOST_CLOCK {
            let stamped = Stamped::new(clock, packet);
            self.node
                .arrive(link, stamped, &mut self.numbers, &mut self.outlet)
        } else {
            Ok(())
        }
    }

    /// It arrives. Where memory is refused all has to be as before, and it arrives again. The
    /// answer is whether all was as before.
    fn hand_again(
        &mut self,
        alloc: Global,
        link: u32,
        clock: u64,
        comes: Comes,
    ) -> Result<bool, NoMemory>
        requires { clock < MOST_CLOCK }
    {
        let before = self.standing();
        match self.hand(alloc, link, clock, comes) {
            Ok(()) => Ok(true),
            Err(_) => {
                let same = self.standing() == before;
                self.hand(alloc, link, clock, comes)?;
                Ok(same)
            }
        }
    }

    /// Passes on what waits, which is nothing.
    fn pass(&mut self) -> Result<bool, NoMemory> {
        self.node.pass(&mut self.outlet)
    }

    /// The clock, the packets that arrived, the entries, the numbers drawn, and the packets sent.
    fn standing(&self) -> (u64, u64, usize, u32, usize) {
        (
            self.node.clock(),
            self.node.handled(),
            self.node.log().entries().len(),
            self.numbers.count(),
            self.outlet.sends.len(),
        )
    }

    /// The link and the clock of the packet that was sent at this place.
    fn sent(&self, at: usize) -> Option<(u32, u64)> {
        let (link, stamped) = self.outlet.sends.get(at)?;
        Some((*link, stamped.clock()))
    }

    /// The agent and the grant of the reply that was sent at this place.
    fn replied(&self, at: usize) -> Result<Option<(u32, Grant)>, NoMemory> {
        match self.outlet.sends.get(at) {
            Some((_, stamped)) => Ok(reply_in(&stamped.packet()?)),
            None => Ok(None),
        }
    }

    /// What the message says that was sent at this place, with its sender.
    fn said(&self, at: usize) -> Result<Option<(u32, u32)>, NoMemory> {
        match self.outlet.sends.get(at) {
            Some((_, stamped)) => Ok(said_in(&stamped.packet()?)),
            None => Ok(None),
        }
    }

    /// Whether the entry is a stray.
    fn strayed(&self, entry: usize) -> bool {
        match self.node.log().entries().get(entry) {
            Some(entry) => matches!(entry.deed, Deed::Stray { .. }),
            None => false,
        }
    }

    /// What was drawn by an entry.
    fn drew(&self, entry: usize) -> Option<Grant> {
        match self.node.log().entries().get(entry)?.deed {
            Deed::Arrived { drew, .. } => drew,
            _ => None,
        }
    }
}

/// The agent and the grant of a reply.
fn reply_in(packet: &Packet<u32>) -> Option<(u32, Grant)> {
    match packet {
        Packet::Reply { agent, grant } => Some((*agent, *grant)),
        _ => None,
    }
}

/// The sender of message 1, and what it says.
fn said_in(packet: &Packet<u32>) -> Option<(u32, u32)> {
    match packet {
        Packet::Message {
            number: 1,
            sender,
            content: Content::Said(label),
        } => Some((*sender, *label.get())),
        _ => None,
    }
}

/// Every step of these tests is made again where it was refused, so they also pass where any one
/// request for memory is refused.
#[test]
fn requests_are_answered_up_to_the_limit(rt: HostRuntime) -> Result<(), Fail> {
    let alloc = rt.alloc();
    let plan = small_plan(alloc)?;
    let mut desk = Desk::new(alloc, &plan, 1);
    assert!(rt; desk.hand_again(alloc, 10, 5, Comes::Request(2))?);
    assert_eq!(rt; desk.standing(), (6, 1, 1, 1, 1));
    assert!(rt; desk.hand_again(alloc, 2, 3, Comes::Request(0))?);
    assert_eq!(rt; desk.standing(), (7, 2, 2, 1, 2));
    assert_eq!(rt; (desk.sent(0), desk.sent(1)), (Some((11, 6)), Some((3, 7))));
    assert_eq!(rt; desk.replied(0)?, Some((2, Grant::Number(1))));
    assert_eq!(rt; desk.replied(1)?, Some((0, Grant::Closed)));
    assert_eq!(rt;
        (desk.drew(0), desk.drew(1)),
        (Some(Grant::Number(1)), Some(Grant::Closed))
    );
    Ok(())
}

#[test]
fn a_message_goes_to_all_but_its_sender(rt: HostRuntime) -> Result<(), Fail> {
    let alloc = rt.alloc();
    let plan = small_plan(alloc)?;
    let mut desk = Desk::new(alloc, &plan, 9);
    assert!(rt; desk.hand_again(alloc, 6, 8, Comes::Message(1))?);
    assert_eq!(rt; desk.standing(), (9, 1, 1, 0, 2));
    assert_eq!(rt; (desk.sent(0), desk.sent(1)), (Some((3, 9)), Some((11, 9))));
    assert_eq!(rt;
        (desk.said(0)?, desk.said(1)?),
        (Some((1, 7)), Some((1, 7)))
    );
    assert!(rt; !desk.pass()? && !desk.node.can_pass());
    assert_eq!(rt;
        (desk.node.stored(), desk.node.into_log().entries().len()),
        (0, 1)
    );
    Ok(())
}

#[test]
fn strays_are_logged_and_nothing_else(rt: HostRuntime) -> Result<(), Fail> {
    let alloc = rt.alloc();
    let plan = small_plan(alloc)?;
    let mut desk = Desk::new(alloc, &plan, 9);
    assert!(rt;
        desk.hand_again(alloc, 10, 1, Comes::Request(1))?,
        "another's link"
    );
    assert!(rt; desk.hand_again(alloc, 6, 1, Comes::Reply(1))?, "a reply");
    assert!(rt;
        desk.hand_again(alloc, 14, 1, Comes::Message(3))?,
        "no such agent"
    );
    assert_eq!(rt; desk.standing(), (4, 3, 3, 0, 0));
    assert!(rt; desk.strayed(0) && desk.strayed(1) && desk.strayed(2));
    Ok(())
}
