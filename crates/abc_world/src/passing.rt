//! One node among others: what it does to them, to the links and to the counter.
ghost use Rattle.std.specs.Prelude.{◌≡◌, ◌<◌, List, [], ◌∷◌, ◌++◌, ℕ, slice_index_or, length, map, Some, slice_get, MatchBool, IfOk, OnOk, OnErr};
ghost use Rattle.std.specs.Bool.{OnFalse};
ghost use Rattle.abc_packet.specs.declared.stamped.Stamped.{Stamped};
ghost use Rattle.abc_packet.specs.Outlets.{sent_on};
ghost use Rattle.abc_shape.specs.Plans.{actor_of};
ghost use Rattle.abc_number.specs.Counter.{Counter};
ghost use Rattle.abc_pool.specs.Queues.{items_in};
ghost use Rattle.abc_history.specs.Nodes.{SeenNode};
ghost use Rattle.abc_history.specs.Outs.{HasLinksFrom};
ghost use Rattle.abc_world.specs.Tables.{OnTables};
ghost use Rattle.abc_world.specs.Kinds.{IsPass, ArrivesOn};
ghost use Rattle.abc_world.specs.Crews.{NodeMade};

use crate::counter::OneCounter;
use crate::links::Links;
use crate::node::Node;
use abc_packet::{MOST_CLOCK, NoMemory, Stamped};

/// Node k passes the message of the next number on, if it can, and answers whether it did.
pub(crate) fn pass<L: Drop, M: Node<L>>(
    nodes: &mut Vec<M>,
    k: u32,
    links: &mut Links<L>,
) -> Result<bool, NoMemory>
    requires there { k < length nodes.old.items }
    requires leads { (n : M) → slice_get nodes.old.items k ≡ Some n →
        HasLinksFrom (M.node n).plan (actor_of (M.node n).plan (M.node n).number)
        (λ l. l < length links.old.queues) }
    requires clock { (n : M) → slice_get nodes.old.items k ≡ Some n →
        (M.node n).actor.clock < MOST_CLOCK }
    ensures made { IfOk result (λ r. MatchBool r ((numbers : Counter) →
        NodeMade M.machine k IsPass [] (map M.node nodes.old.items) (map M.node nodes.new.items)
        links.old.queues links.new.queues numbers numbers)
        ((n : M) → slice_get nodes.old.items k ≡ Some n →
        ¬ (M.machine (M.node n).plan).can_pass (M.node n).actor.state)) }
    ensures stays { IfOk result (λ r. OnFalse r
        ((map M.node nodes.new.items ≡ map M.node nodes.old.items)
        × (links.new.queues ≡ links.old.queues))) }
    ensures err { OnErr result
        ((map M.node nodes.new.items ≡ map M.node nodes.old.items)
        × (links.new.queues ≡ links.old.queues)) }
{
    nodes[k as usize].pass(links)
}

/// Whether node k can pass the message of the next number on.
pub(crate) fn can_pass<L: Drop, M: Node<L>>(nodes: &[M], k: u32) -> bool
    requires there { k < length nodes.now }
    ensures can { MatchBool result
        ((n : M) → slice_get nodes.now k ≡ Some n →
        (M.machine (M.node n).plan).can_pass (M.node n).actor.state)
        ((n : M) → slice_get nodes.now k ≡ Some n →
        ¬ (M.machine (M.node n).plan).can_pass (M.node n).actor.state) }
{
    nodes[k as usize].can_pass()
}

/// A packet arrives at node k, and is still to be taken from its link.
pub(crate) fn receive<L: Drop, M: Node<L>>(
    nodes: &mut Vec<M>,
    k: u32,
    link: u32,
    stamped: Stamped<L>,
    numbers: &mut OneCounter,
    links: &mut Links<L>,
) -> Result<(), NoMemory>
    requires there { k < length nodes.old.items }
    requires leads { (n : M) → slice_get nodes.old.items k ≡ Some n →
        HasLinksFrom (M.node n).plan (actor_of (M.node n).plan (M.node n).number)
        (λ l. l < length links.old.queues) }
    requires clock { (n : M) → slice_get nodes.old.items k ≡ Some n →
        (M.node n).actor.clock < MOST_CLOCK }
    requires stamp { stamped.clock < MOST_CLOCK }
    ensures made { OnOk result ((after : List (List (Stamped L))) →
        ((l : ℕ) → (q : List (Stamped L))
        × (slice_index_or links.old.queues l [] ≡ sent_on l ((link, stamped) ∷ []) ++ q)) →
        OnTables ((link, stamped) ∷ []) [] links.new.queues after →
        NodeMade M.machine k (ArrivesOn link) ((link, stamped) ∷ []) (map M.node nodes.old.items)
        (map M.node nodes.new.items) links.old.queues after numbers.old numbers.new) }
    ensures first { OnOk result ((q : List (Stamped L)) →
        items_in links.old link ≡ stamped ∷ q →
        (more : List (Stamped L)) × (items_in links.new link ≡ stamped ∷ more)) }
    ensures links { length links.new.queues ≡ length links.old.queues }
    ensures err { OnErr result ((map M.node nodes.new.items ≡ map M.node nodes.old.items)
        × (numbers.new ≡ numbers.old) × (links.new.queues ≡ links.old.queues)) }
{
    nodes[k as usize].arrive(link, stamped, numbers, links)
}
