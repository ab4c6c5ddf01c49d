//! One agent among others: what it does to them and to the links.
ghost use Rattle.std.specs.Prelude.{◌≡◌, ◌<◌, List, [], ◌∷◌, length, Some, slice_get, MatchBool, IfOk, OnOk, OnErr};
ghost use Rattle.std.specs.Bool.{OnFalse};
ghost use Rattle.abc_agent.specs.Ways.{HasLinksFrom};
ghost use Rattle.abc_agent.specs.Members.{Member, IsAsk, IsTake, IsTurn};
ghost use Rattle.abc_agent.specs.Conditions.{CanAsk, CanTake, CanTurn};
ghost use Rattle.abc_world.specs.Tables.{OnTables};
ghost use Rattle.abc_world.specs.Kinds.{ArrivesOn};
ghost use Rattle.abc_world.specs.Teams.{AgentMade};
ghost use Rattle.abc_packet.specs.declared.stamped.Stamped.{Stamped};

use crate::links::Links;
use abc_agent::Agent;
use abc_body::Body;
use abc_packet::{MOST_CLOCK, NoMemory, Stamped};
use std::alloc::Global;

/// Agent i asks, if it can, and answers whether it did.
pub(crate) fn ask<B: Body>(
    agents: &mut Vec<Agent<'_, B>>,
    i: u32,
    links: &mut Links<B::Label>,
) -> Result<bool, NoMemory>
    requires there { i < length agents.old.items }
    requires links { (a : Member B B.Label) → slice_get agents.old.items i ≡ Some a →
        HasLinksFrom a.plan a.number (λ l. l < length links.old.queues) }
    requires clock { (a : Member B B.Label) → slice_get agents.old.items i ≡ Some a →
        a.actor.clock < MOST_CLOCK }
    ensures made { IfOk result (λ r. MatchBool r
        (AgentMade B.meaning i IsAsk [] agents.old.items agents.new.items links.old.queues
        links.new.queues)
        ((a : Member B B.Label) → slice_get agents.old.items i ≡ Some a →
        ¬ CanAsk B.meaning a.actor.state)) }
    ensures stays { IfOk result (λ r. OnFalse r
        ((agents.new.items ≡ agents.old.items) × (links.new.queues ≡ links.old.queues))) }
    ensures err { OnErr result ((agents.new.items ≡ agents.old.items)
        × (links.new.queues ≡ links.old.queues)) }
{
    agents[i as usize].ask(links)
}

/// Agent i takes the message of the next number.
fn take<B: Body>(alloc: Global, agents: &mut Vec<Agent<'_, B>>, i: u32) -> Result<(), NoMemory>
    requires there { i < length agents.old.items }
    requires can { (a : Member B B.Label) → slice_get agents.old.items i ≡ Some a →
        CanTake a.actor.state }
    requires clock { (a : Member B B.Label) → slice_get agents.old.items i ≡ Some a →
        a.actor.clock < MOST_CLOCK }
    ensures made { OnOk result ((links : List (List (Stamped B.Label))) →
        AgentMade B.meaning i IsTake [] agents.old.items agents.new.items links links) }
    ensures err { OnErr result (agents.new.items ≡ agents.old.items) }
{
    agents[i as usize].take(alloc)
}

/// Agent i has its turn at the next number.
fn turn<B: Body>(
    alloc: Global,
    agents: &mut Vec<Agent<'_, B>>,
    i: u32,
    links: &mut Links<B::Label>,
) -> Result<(), NoMemory>
    requires there { i < length agents.old.items }
    requires can { (a : Member B B.Label) → slice_get agents.old.items i ≡ Some a →
        CanTurn a.actor.state }
    requires links { (a : Member B B.Label) → slice_get agents.old.items i ≡ Some a →
        HasLinksFrom a.plan a.number (λ l. l < length links.old.queues) }
    requires clock { (a : Member B B.Label) → slice_get agents.old.items i ≡ Some a →
        a.actor.clock < MOST_CLOCK }
    ensures made { OnOk result
        (AgentMade B.meaning i IsTurn [] agents.old.items agents.new.items links.old.queues
        links.new.queues) }
    ensures err { OnErr result ((agents.new.items ≡ agents.old.items)
        × (links.new.queues ≡ links.old.queues)) }
{
    agents[i as usize].turn(alloc, links)
}

/// The first packet of a link arrives at agent i; nothing is sent.
pub(crate) fn arrive<B: Body>(
    agents: &mut Vec<Agent<'_, B>>,
    i: u32,
    link: u32,
    stamped: Stamped<B::Label>,
) -> Result<(), NoMemory>
    requires there { i < length agents.old.items }
    requires clock { (a : Member B B.Label) → slice_get agents.old.items i ≡ Some a →
        a.actor.clock < MOST_CLOCK }
    requires stamp { stamped.clock < MOST_CLOCK }
    ensures made { OnOk result ((links after : List (List (Stamped B.Label))) →
        OnTables ((link, stamped) ∷ []) [] links after →
        AgentMade B.meaning i (ArrivesOn link)
        ((link, stamped) ∷ []) agents.old.items agents.new.items links after) }
    ensures err { OnErr result (agents.new.items ≡ agents.old.items) }
{
    agents[i as usize].arrive(link, stamped)
}

/// Whether agent i can take the message of the next number.
pub(crate) fn can_take<B: Body>(agents: &[Agent<'_, B>], i: u32) -> bool
    requires there { i < length agents.now }
    ensures can { MatchBool result
        ((a : Member B B.Label) → slice_get agents.now i ≡ Some a → CanTake a.actor.state)
        ((a : Member B B.Label) → slice_get agents.now i ≡ Some a → ¬ CanTake a.actor.state) }
{
    agents[i as usize].can_take()
}

/// Whether agent i can ask for a number.
pub(crate) fn can_ask<B: Body>(agents: &[Agent<'_, B>], i: u32) -> bool
    requires there { i < length agents.now }
    ensures can { MatchBool result
        ((a : Member B B.Label) → slice_get agents.now i ≡ Some a → CanAsk B.meaning a.actor.state)
        ((a : Member B B.Label) → slice_get agents.now i ≡ Some a →
        ¬ CanAsk B.meaning a.actor.state) }
{
    agents[i as usize].can_ask()
}

/// Agent i takes the message of the next number, if it can, and answers whether it did.
pub(crate) fn take_if_can<B: Body>(
    alloc: Global,
    agents: &mut Vec<Agent<'_, B>>,
    i: u32,
) -> Result<bool, NoMemory>
    requires there { i < length agents.old.items }
    requires clock { (a : Member B B.Label) → slice_get agents.old.items i ≡ Some a →
        a.actor.clock < MOST_CLOCK }
    ensures made { IfOk result (λ r. MatchBool r ((links : List (List (Stamped B.Label))) →
        AgentMade B.meaning i IsTake [] agents.old.items agents.new.items links links)
        ((a : Member B B.Label) → slice_get agents.old.items i ≡ Some a →
        ¬ CanTake a.actor.state)) }
    ensures stays { IfOk result (λ r. OnFalse r (agents.new.items ≡ agents.old.items)) }
    ensures err { OnErr result (agents.new.items ≡ agents.old.items) }
{
    if !can_take(agents.as_slice(), i) {
        return Ok(false);
    }
    take(alloc, agents, i)?;
    Ok(true)
}

/// Whether agent i can have its turn at the next number.
pub(crate) fn can_turn<B: Body>(agents: &[Agent<'_, B>], i: u32) -> bool
    requires there { i < length agents.now }
    ensures can { MatchBool result
        ((a : Member B B.Label) → slice_get agents.now i ≡ Some a → CanTurn a.actor.state)
        ((a : Member B B.Label) → slice_get agents.now i ≡ Some a → ¬ CanTurn a.actor.state) }
{
    agents[i as usize].can_turn()
}

/// Agent i has its turn at the next number, if it can, and answers whether it did.
pub(crate) fn turn_if_can<B: Body>(
    alloc: Global,
    agents: &mut Vec<Agent<'_, B>>,
    i: u32,
    links: &mut Links<B::Label>,
) -> Result<bool, NoMemory>
    requires there { i < length agents.old.items }
    requires links { (a : Member B B.Label) → slice_get agents.old.items i ≡ Some a →
        HasLinksFrom a.plan a.number (λ l. l < length links.old.queues) }
    requires clock { (a : Member B B.Label) → slice_get agents.old.items i ≡ Some a →
        a.actor.clock < MOST_CLOCK }
    ensures made { IfOk result (λ r. MatchBool r
        (AgentMade B.meaning i IsTurn [] agents.old.items agents.new.items links.old.queues
        links.new.queues)
        ((a : Member B B.Label) → slice_get agents.old.items i ≡ Some a →
        ¬ CanTurn a.actor.state)) }
    ensures stays { IfOk result (λ r. OnFalse r
        ((agents.new.items ≡ agents.old.items) × (links.new.queues ≡ links.old.queues))) }
    ensures err { OnErr result
        ((agents.new.items ≡ agents.old.items) × (links.new.queues ≡ links.old.queues)) }
{
    if !can_turn(agents.as_slice(), i) {
        return Ok(false);
    }
    turn(alloc, agents, i, links)?;
    Ok(true)
}
