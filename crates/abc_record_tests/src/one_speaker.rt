//! A record that is made by hand, and is proved legal.
ghost use Rattle.std.specs.Prelude.{◌≡◌, IfOk};
ghost use Rattle.abc_checks.specs.Facts.{IsChecked};
ghost use Rattle.abc_record_text.specs.LegalRecords.{IsLegalFor};
ghost use Rattle.abc_record_tests.specs.OneSpeaker.{SpeaksOnce, node_log, speaker_log};

use abc_body::Body;
use abc_live_body::AbcBody;
use abc_moves::Label;
use abc_packet::{Content, Deed, Entry, Grant, Log, Owner, Packet, Stamped};
use abc_parse::{Parsed, parse};
use abc_record_text::{Record, record_text};
use abc_shape::Shape;
use abc_term::Program;
use abc_value::{List, NoMemory};
use std::alloc::Global;
use std::test::Fail;

/// The agent asks, has number 1, and says this at this place.
fn speaker_log(alloc: Global, place: u32, label: Owner<Label>) -> Result<Log<Label>, NoMemory>
    ensures { IfOk result (λ log. log.entries ≡ speaker_log place label) }
{
    let grant = Grant::Number(1);
    let stamped = Stamped::new(2, Packet::Reply { agent: 0, grant });
    let mut log = Log::new(alloc);
    log.make_room(3)?;
    log.push(Entry {
        clock: 1,
        deed: Deed::Asked,
    });
    log.push(Entry {
        clock: 3,
        deed: Deed::Arrived {
            link: 1,
            stamped,
            drew: None,
        },
    });
    log.push(Entry {
        clock: 4,
        deed: Deed::Turned {
            number: 1,
            place: Some(place),
            content: Content::Said(label),
        },
    });
    Ok(log)
}

/// The node draws number 1, and sends the message on to nobody.
fn node_log(alloc: Global, label: Owner<Label>) -> Result<Log<Label>, NoMemory>
    ensures { IfOk result (λ log. log.entries ≡ node_log label) }
{
    let request = Stamped::new(1, Packet::Request { agent: 0 });
    let message = Stamped::new(
        4,
        Packet::Message {
            number: 1,
            sender: 0,
            content: Content::Said(label),
        },
    );
    let mut log = Log::new(alloc);
    log.make_room(2)?;
    log.push(Entry {
        clock: 2,
        deed: Deed::Arrived {
            link: 0,
            stamped: request,
            drew: Some(Grant::Number(1)),
        },
    });
    log.push(Entry {
        clock: 5,
        deed: Deed::Arrived {
            link: 0,
            stamped: message,
            drew: None,
        },
    });
    Ok(log)
}

/// What the only component of a program says first, with its place and one more owner of it. It is
/// refused where there is another component, or more to say.
fn said_once(alloc: Global, program: &Program) -> Result<(u32, Owner<Label>, Owner<Label>), Fail>
    requires { IsChecked program.now }
    ensures { IfOk result (λ said. SpeaksOnce program.now said.0 said.1 said.2) }
{
    if program.components.len() != 1 {
        return Err(Fail::from("another component"));
    }
    let mut body = AbcBody::start(alloc, program, 0)?;
    if !body.can_speak() {
        return Err(Fail::from("nothing to say"));
    }
    let said = body.speak(alloc, 0)?;
    if body.can_speak() {
        return Err(Fail::from("more to say"));
    }
    Ok(said)
}

/// The record of the only component of a program, which speaks once.
fn one_speaks(alloc: Global, program: &Program) -> Result<Record<Label>, Fail>
    requires { IsChecked program.now }
    ensures { IfOk result (IsLegalFor program.now) }
{
    let (place, said, heard) = said_once(alloc, program)?;
    let mut logs = List::new(alloc);
    logs.push(speaker_log(alloc, place, said)?)?;
    logs.push(node_log(alloc, heard)?)?;
    Ok(Record {
        shape: Shape::Cluster,
        agents: 1,
        nodes: 1,
        limit: 10,
        pick: 0,
        logs,
    })
}

/// A component that speaks once, and changes an attribute as it does.
const PROGRAM: &[u8] = b"abc 1;
comp ann { n = 1; show n; run (\"hi\", n) @ (n < 1) . [n := n + 1] 0; }";

/// What its record says.
const TEXT: &[u8] = b"abc-trace 1 cluster 10 1 0
1 ann:0 (\"hi\", 1) @ (n < 1) -> -
env ann { n = 2; }
node 0 2
quiet 1
";

#[test]
fn one_speaker(rt: HostRuntime) -> Result<(), Fail> {
    let alloc = rt.alloc();
    assert!(rt; PROGRAM.len() < 100000);
    let Parsed { program, .. } = parse(alloc, PROGRAM)?;
    let ran = one_speaks(alloc, &program)?;
    let text = record_text(alloc, &program, &ran)?;
    assert!(rt; text.as_slice() == TEXT);
    Ok(())
}
