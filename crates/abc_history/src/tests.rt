ghost use Rattle.std.specs.Prelude.{◌≡◌, ◌≤◌};

use super::*;
use abc_packet::{Deed, MOST_CLOCK, MemoryOutlet, Outlet, Packet, Stamped};
use std::collections::VecDeque;
use std::test::Fail;

/// The request of an agent, sent at a clock.
fn request(clock: u64, agent: u32) -> Stamped<u32>
    requires { clock ≤ MOST_CLOCK }
    ensures { result.clock ≡ clock }
{
    Stamped::new(clock, Packet::Request { agent })
}

#[test]
fn an_arrival_is_logged_above_its_packet(rt: HostRuntime) -> Result<(), Fail> {
    let mut history: History<u32> = History::new(rt.alloc());
    history.make_room()?;
    let stamped = request(5, 1);
    let clock = history.clock_after(&stamped);
    history.note(clock, Deed::Stray { link: 2, stamped });
    assert_eq!(rt; (history.clock(), history.arrivals()), (6, 1));
    assert_eq!(rt; history.log().entries().len(), 1);
    history.make_room()?;
    history.note(7, Deed::Asked);
    assert_eq!(rt; (history.clock(), history.arrivals()), (7, 1));
    assert_eq!(rt; history.into_log().entries().len(), 2);
    Ok(())
}

#[test]
fn packets_are_sent_in_order(rt: HostRuntime) -> Result<(), Fail> {
    let alloc = rt.alloc();
    let mut outlet = MemoryOutlet::new(alloc, 4);
    outlet.make_room(2)?;
    let mut ready = VecDeque::new(alloc);
    ready.push_back((3, request(1, 0)))?;
    ready.push_back((1, request(1, 1)))?;
    send_all(&mut outlet, ready);
    let sends = outlet.sends();
    assert_eq!(rt; sends.len(), 2);
    assert_eq!(rt; (sends[0].0, sends[1].0), (3, 1));
    Ok(())
}
