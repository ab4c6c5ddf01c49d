ghost use Rattle.std.specs.Prelude.{◌≡◌, ◌≤◌, ◌<◌, ◌^◌, All, length};
ghost use Rattle.std.specs.Bool.{OnTrue};
ghost use Rattle.abc_network.specs.Networks.{taken_clock};

use super::*;
use abc_history::History;
use abc_packet::{Content, Deed, Grant, List, Log, MOST_CLOCK, Owner, Packet, Stamped};
use abc_shape::Shape;
use std::alloc::Global;
use std::process::Abort;
use std::test::Fail;

/// The request of agent 0, sent at this clock.
fn request(clock: u64) -> Stamped<u32>
    requires { clock ≤ MOST_CLOCK }
{
    Stamped::new(clock, Packet::Request { agent: 0 })
}

/// The reply that agent 0 has number 1.
fn reply(clock: u64) -> Stamped<u32>
    requires { clock ≤ MOST_CLOCK }
{
    let grant = Grant::Number(1);
    Stamped::new(clock, Packet::Reply { agent: 0, grant })
}

/// The message of agent 0 under number 1.
fn message(clock: u64) -> Stamped<u32>
    requires { clock ≤ MOST_CLOCK }
{
    let content = Content::Empty;
    Stamped::new(
        clock,
        Packet::Message {
            number: 1,
            sender: 0,
            content,
        },
    )
}

/// Logs a deed that took no packet.
fn act(rt: &impl Abort, history: &mut History<u32>, deed: Deed<u32>) -> Result<(), Fail>
    requires { taken_clock deed ≡ 0 }
{
    let clock = history.clock();
    assert!(rt; clock < MOST_CLOCK);
    history.make_room()?;
    history.note(clock + 1, deed);
    Ok(())
}

/// Logs the arrival of a packet on link 0.
fn arrive(
    rt: &impl Abort,
    history: &mut History<u32>,
    stamped: Stamped<u32>,
    drew: Option<Grant>,
) -> Result<(), Fail> {
    let clocks = history.clock().max(stamped.clock());
    assert!(rt; clocks < MOST_CLOCK);
    history.make_room()?;
    let clock = history.clock_after(&stamped);
    let link = 0;
    history.note(
        clock,
        Deed::Arrived {
            link,
            stamped,
            drew,
        },
    );
    Ok(())
}

/// Logs a stray on link 0.
fn go_astray(
    rt: &impl Abort,
    history: &mut History<u32>,
    stamped: Stamped<u32>,
) -> Result<(), Fail> {
    let clocks = history.clock().max(stamped.clock());
    assert!(rt; clocks < MOST_CLOCK);
    history.make_room()?;
    let clock = history.clock_after(&stamped);
    history.note(clock, Deed::Stray { link: 0, stamped });
    Ok(())
}

/// The log of an agent that asks, has number 1 and says 7 at it.
fn speaker(rt: &impl Abort, alloc: Global) -> Result<Log<u32>, Fail> {
    let mut history = History::new(alloc);
    act(rt, &mut history, Deed::Asked)?;
    arrive(rt, &mut history, reply(2), None)?;
    let content = Content::Said(Owner::new(alloc, 7)?);
    let turned = Deed::Turned {
        number: 1,
        place: Some(0),
        content,
    };
    act(rt, &mut history, turned)?;
    Ok(history.into_log())
}

/// The log of an agent that hears number 1.
fn hearer(rt: &impl Abort, alloc: Global) -> Result<Log<u32>, Fail> {
    let mut history = History::new(alloc);
    arrive(rt, &mut history, message(6), None)?;
    let took = Deed::Took {
        number: 1,
        place: Some(0),
    };
    act(rt, &mut history, took)?;
    Ok(history.into_log())
}

/// The log of a node that draws number 1, and passes its message.
fn node(rt: &impl Abort, alloc: Global) -> Result<Log<u32>, Fail> {
    let mut history = History::new(alloc);
    let drew = Some(Grant::Number(1));
    arrive(rt, &mut history, request(1), drew)?;
    arrive(rt, &mut history, message(4), None)?;
    act(rt, &mut history, Deed::Passed { number: 1 })?;
    Ok(history.into_log())
}

/// The log of a node to which these clocks' messages go astray, behind one request.
fn astray(rt: &impl Abort, alloc: Global) -> Result<Log<u32>, Fail> {
    let mut history = History::new(alloc);
    arrive(rt, &mut history, request(1), None)?;
    go_astray(rt, &mut history, message(9))?;
    go_astray(rt, &mut history, message(3))?;
    act(rt, &mut history, Deed::Passed { number: 1 })?;
    Ok(history.into_log())
}

/// The log of an agent that asks twice.
fn asker(rt: &impl Abort, alloc: Global) -> Result<Log<u32>, Fail> {
    let mut history = History::new(alloc);
    act(rt, &mut history, Deed::Asked)?;
    act(rt, &mut history, Deed::Asked)?;
    Ok(history.into_log())
}

/// The record of a ring with these logs, of which the last is its node's.
fn ring(logs: Vec<Log<u32>>, agents: u32) -> Record<u32>
    ensures agents { result.agents ≡ agents }
    ensures nodes { result.nodes ≡ 1 }
    ensures logs { result.logs ≡ logs.items }
{
    Record {
        shape: Shape::Ring,
        agents,
        nodes: 1,
        limit: 10,
        pick: 0,
        logs: List::from_vec(logs),
    }
}

/// Whether each of these logs is shorter than the merge asks for.
fn are_short(logs: &[Log<u32>]) -> bool
    ensures { OnTrue result (All (λ log. length log.entries < 2 ^ 32) logs.now) }
{
    logs.iter().all(|log| log.entries().len() < 1 << 32)
}

/// The merge of a record: of each entry its clock, its actor and its place.
fn merged(rt: &impl Abort, alloc: Global, ran: &Record<u32>) -> Result<Vec<(u64, u32, u32)>, Fail> {
    let logs = ran.logs.as_slice();
    assert!(rt; logs.len() < 1 << 32);
    assert!(rt; are_short(logs));
    let places = merge(alloc, ran)?;
    let mut found = Vec::new(alloc);
    for (actor, place) in places.as_slice() {
        let clock = clock_of(logs, *actor, *place).ok_or("no such entry")?;
        found.push((clock, *actor, *place))?;
    }
    Ok(found)
}

/// The clock of the entry at a place of an actor's log.
fn clock_of(logs: &[Log<u32>], actor: u32, place: u32) -> Option<u64> {
    let log = logs.get(actor as usize)?;
    Some(log.entries().get(place as usize)?.clock)
}

/// What is to come of the record of one message in a ring of one node.
const ONE_MESSAGE: [(u64, u32, u32); 10] = [
    (1, 0, 0),
    (2, 3, 0),
    (3, 0, 1),
    (4, 0, 2),
    (5, 3, 1),
    (6, 3, 2),
    (7, 1, 0),
    (7, 2, 0),
    (8, 1, 1),
    (8, 2, 1),
];

#[test]
fn one_message(rt: HostRuntime) -> Result<(), Fail> {
    let alloc = rt.alloc();
    let mut logs = Vec::new(alloc);
    logs.push(speaker(&rt, alloc)?)?;
    logs.push(hearer(&rt, alloc)?)?;
    logs.push(hearer(&rt, alloc)?)?;
    logs.push(node(&rt, alloc)?)?;
    let found = merged(&rt, alloc, &ring(logs, 3))?;
    assert!(rt; found.as_slice() == ONE_MESSAGE.as_slice());
    Ok(())
}

/// Of two entries at clock 2 the one of the lesser actor comes first, though its place is greater.
#[test]
fn ties(rt: HostRuntime) -> Result<(), Fail> {
    let alloc = rt.alloc();
    let mut logs = Vec::new(alloc);
    logs.push(asker(&rt, alloc)?)?;
    logs.push(astray(&rt, alloc)?)?;
    let found = merged(&rt, alloc, &ring(logs, 1))?;
    let wanted = [
        (1, 0, 0),
        (2, 0, 1),
        (2, 1, 0),
        (10, 1, 1),
        (11, 1, 2),
        (12, 1, 3),
    ];
    assert!(rt; found.as_slice() == wanted.as_slice());
    Ok(())
}

#[test]
fn strays_are_handled(rt: HostRuntime) -> Result<(), Fail> {
    let alloc = rt.alloc();
    let mut logs = Vec::new(alloc);
    logs.push(asker(&rt, alloc)?)?;
    logs.push(astray(&rt, alloc)?)?;
    let ran = ring(logs, 1);
    assert!(rt; ran.logs.len() == 2);
    assert_eq!(rt; handled(&ran, 0), 3);
    Ok(())
}
