ghost use Rattle.std.specs.Prelude.{◌≡◌, ◌≤◌, [], ◌∷◌, IfOk, OnOk, OnErr};
ghost use Rattle.abc_packet.specs.Packets.{packet_number};
ghost use Rattle.abc_packet.specs.Outlets.{Sends, SameLists, SameLinks};

use super::*;
use std::alloc::Global;
use std::test::Fail;

/// Sends a packet on one link and a request on another, over any outlet.
fn send_both<L: Drop, O: Outlet<L>>(
    outlet: &mut O,
    links: (u32, u32),
    first: Stamped<L>,
    second: Stamped<L>,
) -> Result<(), NoMemory>
    requires first { O.has_link outlet.old links.0 }
    requires second { O.has_link outlet.old links.1 }
    ensures links { SameLinks (O.has_link outlet.old) (O.has_link outlet.new) }
    ensures ok { let sends = (links.0, first) ∷ (links.1, second) ∷ [] in
        OnOk result (Sends (O.lists outlet.old) sends (O.lists outlet.new)) }
    ensures err { OnErr result (SameLists (O.lists outlet.old) (O.lists outlet.new)) }
    ensures rest { O.rest outlet.new ≡ O.rest outlet.old }
{
    outlet.make_room(2)?;
    outlet.send(links.0, first);
    outlet.send(links.1, second);
    Ok(())
}

/// Message 1 of agent 0, with its clock.
fn message(alloc: Global, clock: u64) -> Result<Stamped<u32>, NoMemory>
    requires { clock ≤ MOST_CLOCK }
    ensures { IfOk result (λ s. s.clock ≡ clock) }
{
    let content = Content::Said(Owner::new(alloc, 7)?);
    let packet = Packet::Message {
        number: 1,
        sender: 0,
        content,
    };
    Ok(Stamped::new(clock, packet))
}

/// Whether this is that message with that clock.
fn is_message(stamped: &Stamped<u32>, clock: u64) -> Result<bool, NoMemory> {
    let said = match stamped.packet()? {
        Packet::Message {
            number: 1,
            sender: 0,
            content: Content::Said(label),
        } => *label.get() == 7,
        _ => false,
    };
    Ok(said && stamped.clock() == clock)
}

/// A copy of a packet with a clock.
fn copied(packet: Packet<u32>) -> Result<Packet<u32>, NoMemory>
    requires { packet_number packet ≤ MOST_NUMBER }
{
    let stamped = Stamped::new(4, packet).copy()?;
    stamped.packet()
}

#[test]
fn copies(rt: HostRuntime) -> Result<(), Fail> {
    let alloc = rt.alloc();
    let first = message(alloc, MOST_CLOCK)?;
    let other = first.copy()?;
    drop(first);
    assert!(rt; is_message(&other, MOST_CLOCK)?, "a copy keeps its label");
    let said = Content::Said(Owner::new(alloc, 7)?);
    assert!(rt; matches!(said.copy()?, Content::Said(label) if *label.get() == 7));
    let empty: Content<u32> = Content::Empty;
    assert!(rt; matches!(empty.copy()?, Content::Empty));
    Ok(())
}

#[test]
fn copies_of_packets(rt: HostRuntime) -> Result<(), Fail> {
    let request = copied(Packet::Request { agent: 2 })?;
    assert!(rt; matches!(request, Packet::Request { agent: 2 }));
    let agent = 3;
    let number = Grant::Number(MOST_NUMBER);
    let reply = copied(Packet::Reply {
        agent,
        grant: number,
    })?;
    assert!(rt; matches!(reply, Packet::Reply { agent: 3, grant } if grant == number));
    let closed = copied(Packet::Reply {
        agent,
        grant: Grant::Closed,
    })?;
    assert!(rt; matches!(closed, Packet::Reply { agent: 3, grant } if grant == Grant::Closed));
    let message = copied(Packet::Message {
        number: 5,
        sender: 6,
        content: Content::Empty,
    })?;
    assert!(rt; is_empty_message(&message));
    Ok(())
}

/// Whether this is message 5 of agent 6, without a label.
fn is_empty_message(packet: &Packet<u32>) -> bool {
    matches!(
        packet,
        Packet::Message {
            number: 5,
            sender: 6,
            content: Content::Empty,
        }
    )
}

#[test]
fn logs(rt: HostRuntime) -> Result<(), Fail> {
    let alloc = rt.alloc();
    let mut log = Log::new(alloc);
    log.make_room(2)?;
    assert!(rt; 2 <= log.room(), "the room was made");
    log.push(Entry {
        clock: 1,
        deed: Deed::Asked,
    });
    let stamped = message(alloc, 5)?;
    log.push(Entry {
        clock: 6,
        deed: Deed::Stray { link: 3, stamped },
    });
    assert_eq!(rt; log.entries().len(), 2);
    assert!(rt;
        matches!(log.entries()[1].deed, Deed::Stray { link: 3, .. }),
        "in order"
    );
    assert_eq!(rt; log.make_room(usize::MAX), Err(NoMemory));
    assert_eq!(rt; log.entries().len(), 2);
    Ok(())
}

#[test]
fn outlets(rt: HostRuntime) -> Result<(), Fail> {
    let alloc = rt.alloc();
    let mut outlet = MemoryOutlet::new(alloc, 4);
    let request = Stamped::new(2, Packet::Request { agent: 1 });
    let first = message(alloc, 9)?;
    send_both(&mut outlet, (3, 1), first, request)?;
    let sends = outlet.sends();
    assert_eq!(rt; sends.len(), 2);
    assert_eq!(rt; (sends[0].0, sends[1].0), (3, 1));
    assert!(rt; is_message(&sends[0].1, 9)?, "as it was sent");
    assert_eq!(rt; outlet.make_room(usize::MAX), Err(NoMemory));
    Ok(())
}
