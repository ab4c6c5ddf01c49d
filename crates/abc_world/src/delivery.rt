//! The first packet of a link arrives at the actor at which the link ends.
ghost use Rattle.std.specs.Prelude.{◌≡◌, ◌<◌, List, [], ◌∷◌, length, map, Some, slice_get, MatchOption, MatchBool, IfOk, OnErr};
ghost use Rattle.std.specs.Bool.{OnFalse};
ghost use Rattle.abc_packet.specs.declared.stamped.Stamped.{Stamped};
ghost use Rattle.abc_shape.specs.Plans.{actor_of};
ghost use Rattle.abc_pool.specs.Queues.{items_in};
ghost use Rattle.abc_history.specs.Outs.{HasLinksFrom};
ghost use Rattle.abc_agent.specs.Members.{Member};
ghost use Rattle.abc_world.specs.Tables.{OnTables};
ghost use Rattle.abc_world.specs.Kinds.{ArrivesOn};
ghost use Rattle.abc_world.specs.Teams.{AgentMade};
ghost use Rattle.abc_world.specs.Crews.{NodeMade};

use crate::counter::OneCounter;
use crate::links::Links;
use crate::node::Node;
use crate::{moving, passing};
use abc_agent::Agent;
use abc_body::Body;
use abc_packet::{MOST_CLOCK, NoMemory, Stamped};

/// The first packet of a link with one more owner of its label; None where nothing is on the link.
fn first_copy<L>(links: &Links<L>, link: u32) -> Result<Option<Stamped<L>>, NoMemory>
    requires there { link < length links.now.queues }
    ensures first { IfOk result (λ o. MatchOption o (items_in links.now link ≡ [])
        (λ x. (q : List (Stamped L)) × (items_in links.now link ≡ x ∷ q))) }
{
    match links.front(link) {
        Some(stamped) => Ok(Some(stamped.copy()?)),
        None => Ok(None),
    }
}

/// The first packet of a link is taken.
fn drop_first<L: Drop>(links: &mut Links<L>, link: u32)
    requires there { link < length links.old.queues }
    ensures taken { (x : Stamped L) (q : List (Stamped L)) → items_in links.old link ≡ x ∷ q →
        OnTables ((link, x) ∷ []) [] links.old.queues links.new.queues }
{
    let _first = links.take_first(link);
}

/// The first packet of a link arrives at agent i, if one is there, and the answer is whether it
/// did.
pub(crate) fn to_agent<B: Body>(
    agents: &mut Vec<Agent<'_, B>>,
    i: u32,
    link: u32,
    links: &mut Links<B::Label>,
) -> Result<bool, NoMemory>
    requires there { i < length agents.old.items }
    requires link { link < length links.old.queues }
    requires clock { (a : Member B B.Label) → slice_get agents.old.items i ≡ Some a →
        a.actor.clock < MOST_CLOCK }
    requires stamps { (x : Stamped B.Label) (q : List (Stamped B.Label)) →
        items_in links.old link ≡ x ∷ q → x.clock < MOST_CLOCK }
    ensures made { IfOk result (λ r. MatchBool r
        ((x : Stamped B.Label) × AgentMade B.meaning i (ArrivesOn link) ((link, x) ∷ [])
        agents.old.items agents.new.items links.old.queues links.new.queues)
        (items_in links.old link ≡ [])) }
    ensures stays { IfOk result (λ r. OnFalse r
        ((agents.new.items ≡ agents.old.items) × (links.new.queues ≡ links.old.queues))) }
    ensures err { OnErr result ((agents.new.items ≡ agents.old.items)
        × (links.new.queues ≡ links.old.queues)) }
{
    let Some(stamped) = first_copy(links, link)? else {
        return Ok(false);
    };
    moving::arrive(agents, i, link, stamped)?;
    drop_first(links, link);
    Ok(true)
}

/// The first packet of a link arrives at node k, likewise.
pub(crate) fn to_node<L: Drop, M: Node<L>>(
    nodes: &mut Vec<M>,
    k: u32,
    link: u32,
    numbers: &mut OneCounter,
    links: &mut Links<L>,
) -> Result<bool, NoMemory>
    requires there { k < length nodes.old.items }
    requires link { link < length links.old.queues }
    requires leads { (n : M) → slice_get nodes.old.items k ≡ Some n →
        HasLinksFrom (M.node n).plan (actor_of (M.node n).plan (M.node n).number)
        (λ l. l < length links.old.queues) }
    requires clock { (n : M) → slice_get nodes.old.items k ≡ Some n →
        (M.node n).actor.clock < MOST_CLOCK }
    requires stamps { (x : Stamped L) (q : List (Stamped L)) →
        items_in links.old link ≡ x ∷ q → x.clock < MOST_CLOCK }
    ensures made { IfOk result (λ r. MatchBool r
        ((x : Stamped L) × NodeMade M.machine k (ArrivesOn link) ((link, x) ∷ [])
        (map M.node nodes.old.items) (map M.node nodes.new.items) links.old.queues links.new.queues
        numbers.old numbers.new)
        (items_in links.old link ≡ [])) }
    ensures stays { IfOk result (λ r. OnFalse r ((map M.node nodes.new.items ≡ map M.node
        nodes.old.items)
        × (numbers.new ≡ numbers.old) × (links.new.queues ≡ links.old.queues))) }
    ensures err { OnErr result ((map M.node nodes.new.items ≡ map M.node nodes.old.items)
        × (numbers.new ≡ numbers.old) × (links.new.queues ≡ links.old.queues)) }
{
    let Some(stamped) = first_copy(links, link)? else {
        return Ok(false);
    };
    passing::receive(nodes, k, link, stamped, numbers, links)?;
    drop_first(links, link);
    Ok(true)
}
