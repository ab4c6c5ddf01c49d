//! Deeds and packets, read from words.
ghost use Rattle.std.specs.Prelude.{◌≤◌, IfSome};
ghost use Rattle.abc_packet.specs.Packets.{grant_number};

use abc_packet::{Content, Deed, Grant, MOST_CLOCK, MOST_NUMBER, Owner, Packet, Stamped};
use std::alloc::Global;

/// A number, or `-` for none. None where it is neither.
fn place_of(word: &str) -> Option<Option<u32>> {
    match word {
        "-" => Some(None),
        _ => Some(Some(word.parse::<u32>().ok()?)),
    }
}

/// A sequence number that a packet can hold.
fn number_of(word: &str) -> Option<u32>
    ensures { IfSome result (λ n. n ≤ MOST_NUMBER) }
{
    let number = word.parse::<u32>().ok()?;
    if number > MOST_NUMBER {
        return None;
    }
    Some(number)
}

fn grant_of(word: &str) -> Option<Grant>
    ensures { IfSome result (λ g. grant_number g ≤ MOST_NUMBER) }
{
    match word {
        "closed" => Some(Grant::Closed),
        _ => Some(Grant::Number(number_of(word)?)),
    }
}

/// What was drawn; `-` for nothing.
fn drew_of(word: &str) -> Option<Option<Grant>> {
    match word {
        "-" => Some(None),
        _ => Some(Some(grant_of(word)?)),
    }
}

fn content_of(alloc: Global, word: &str) -> Option<Content<u32>> {
    match word {
        "empty" => Some(Content::Empty),
        _ => {
            let label = word.parse::<u32>().ok()?;
            Some(Content::Said(Owner::new(alloc, label).ok()?))
        }
    }
}

/// A packet that was sent at this clock.
fn stamped_of(alloc: Global, clock: u64, words: &[&str]) -> Option<Stamped<u32>> {
    if clock > MOST_CLOCK {
        return None;
    }
    match words {
        [kind, agent] => request_of(clock, kind, agent),
        [kind, agent, grant] => reply_of(clock, kind, agent, grant),
        [kind, number, sender, content] => {
            let content = content_of(alloc, content)?;
            message_of(clock, kind, number, sender, content)
        }
        _ => None,
    }
}

fn request_of(clock: u64, kind: &str, agent: &str) -> Option<Stamped<u32>>
    requires { clock ≤ MOST_CLOCK }
{
    if kind != "request" {
        return None;
    }
    let agent = agent.parse::<u32>().ok()?;
    Some(Stamped::new(clock, Packet::Request { agent }))
}

fn reply_of(clock: u64, kind: &str, agent: &str, grant: &str) -> Option<Stamped<u32>>
    requires { clock ≤ MOST_CLOCK }
{
    if kind != "reply" {
        return None;
    }
    let agent = agent.parse::<u32>().ok()?;
    let grant = grant_of(grant)?;
    Some(Stamped::new(clock, Packet::Reply { agent, grant }))
}

fn message_of(
    clock: u64,
    kind: &str,
    number: &str,
    sender: &str,
    content: Content<u32>,
) -> Option<Stamped<u32>>
    requires { clock ≤ MOST_CLOCK }
{
    if kind != "message" {
        return None;
    }
    let number = number_of(number)?;
    let sender = sender.parse::<u32>().ok()?;
    Some(Stamped::new(
        clock,
        Packet::Message {
            number,
            sender,
            content,
        },
    ))
}

/// A packet with its link: LINK SENT PACKET.
fn taken_of(alloc: Global, words: &[&str]) -> Option<(u32, Stamped<u32>)> {
    match words {
        [link, sent, packet @ ..] => {
            let link = link.parse::<u32>().ok()?;
            let stamped = stamped_of(alloc, sent.parse::<u64>().ok()?, packet)?;
            Some((link, stamped))
        }
        _ => None,
    }
}

/// The deed of an arrival, behind its first word.
fn arrived_of(alloc: Global, words: &[&str]) -> Option<Deed<u32>> {
    match words {
        [drew, taken @ ..] => {
            let drew = drew_of(drew)?;
            let (link, stamped) = taken_of(alloc, taken)?;
            Some(Deed::Arrived {
                link,
                stamped,
                drew,
            })
        }
        _ => None,
    }
}

fn stray_of(alloc: Global, words: &[&str]) -> Option<Deed<u32>> {
    let (link, stamped) = taken_of(alloc, words)?;
    Some(Deed::Stray { link, stamped })
}

fn asked_of(words: &[&str]) -> Option<Deed<u32>> {
    match words {
        [] => Some(Deed::Asked),
        _ => None,
    }
}

fn passed_of(words: &[&str]) -> Option<Deed<u32>> {
    match words {
        [number] => Some(Deed::Passed {
            number: number.parse::<u32>().ok()?,
        }),
        _ => None,
    }
}

fn took_of(words: &[&str]) -> Option<Deed<u32>> {
    match words {
        [number, place] => {
            let number = number.parse::<u32>().ok()?;
            let place = place_of(place)?;
            Some(Deed::Took { number, place })
        }
        _ => None,
    }
}

fn turned_of(alloc: Global, words: &[&str]) -> Option<Deed<u32>> {
    match words {
        [number, place, content] => {
            let number = number.parse::<u32>().ok()?;
            let place = place_of(place)?;
            let content = content_of(alloc, content)?;
            Some(Deed::Turned {
                number,
                place,
                content,
            })
        }
        _ => None,
    }
}

/// The deed that words say; None where they say none, or where there is no memory.
pub(crate) fn deed_of(alloc: Global, words: &[&str]) -> Option<Deed<u32>> {
    let (kind, parts) = words.split_first()?;
    match *kind {
        "asked" => asked_of(parts),
        "took" => took_of(parts),
        "turned" => turned_of(alloc, parts),
        "passed" => passed_of(parts),
        "arrived" => arrived_of(alloc, parts),
        "stray" => stray_of(alloc, parts),
        _ => None,
    }
}
