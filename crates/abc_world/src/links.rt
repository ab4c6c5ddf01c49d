//! The links of a network on one thread.
ghost use Rattle.std.specs.Prelude.{◌≡◌, ◌<◌, ◌≤◌, ◌+◌, [], ◌∷◌, List, ℕ, length, replicate, slice_get, IfOk, IfSome, IfNone, MatchBool, IsTrue, ◌↔◌, OnOk, OnErr};
ghost use Rattle.std.specs.Option.{option_copied};
ghost use Rattle.abc_packet.specs.declared.stamped.Stamped.{Stamped};
ghost use Rattle.abc_packet.specs.Outlets.{Sends, SameLists, SameLinks};
ghost use Rattle.abc_shape.specs.Plans.{link_count};
ghost use Rattle.abc_pool.specs.Queues.{items_in, Pops};

use crate::awake::Awake;
use abc_packet::{NoMemory, Outlet, Stamped};
use abc_pool::Pool;
use abc_shape::Plan;
use std::alloc::Global;
use std::marker::Model;

/// A list of packets for each link of a network, all in one table of cells.
///
/// Contracts see the lists, by the number of their link, and how many packets more there is room
/// for.
#[derive(Drop)]
pub struct Links<L> {
    pool: Pool<Stamped<L>>,
    // the actor at which each link ends, and those to which something may have been sent
    ends: Vec<u32>,
    awake: Awake,
}

impl<L> Model for Links<L> {
    ghost use Rattle.abc_pool.specs.Queues.{Queues};
    ghost use Rattle.abc_packet.specs.declared.stamped.Stamped.{Stamped};

    ghost Value = { Queues (Stamped L) };

    ghost view = { λ l. l.pool };
}

/// The actor at which each link of a plan ends.
fn ends_of(alloc: Global, plan: &Plan) -> Result<Vec<u32>, NoMemory> {
    let links = plan.links();
    let mut ends = Vec::with_capacity(alloc, links.len())?;
    'listing: for link in links {
        ends.push(link.to)?;
    }
    Ok(ends)
}

impl<L> Links<L> {
    /// The links of a plan, with nothing on them.
    #[tactic(auto, using(crate::proofs::Few::few_links))]
    pub fn new(alloc: Global, plan: &Plan) -> Result<Links<L>, NoMemory>
        ensures queues { IfOk result (λ l. l.queues ≡ replicate (link_count plan.now) []) }
    {
        let _agents = plan.agents();
        let count = plan.links().len();
        let ends = ends_of(alloc, plan)?;
        let awake = Awake::all();
        let pool = Pool::with_queues(alloc, count as u32)?;
        Ok(Links { pool, ends, awake })
    }

    /// The first packet of a link, which stays; None where nothing is on it.
    pub fn front(&self, link: u32) -> Option<&Stamped<L>>
        requires there { link < length self.now.queues }
        ensures first { option_copied result ≡ slice_get (items_in self.now link) 0 }
    {
        self.pool.front(link)
    }

    /// Whether a packet is on a link.
    pub fn waits(&self, link: u32) -> bool
        requires there { link < length self.now.queues }
        ensures { MatchBool result
            ((x : Stamped L) × (q : List (Stamped L)) × (items_in self.now link ≡ x ∷ q))
            (items_in self.now link ≡ []) }
    {
        match self.pool.front(link) {
            Some(_first) => true,
            None => false,
        }
    }

    /// Takes the first packet of a link; None where nothing is on it.
    pub fn take_first(&mut self, link: u32) -> Option<Stamped<L>>
        requires there { link < length self.old.queues }
        ensures first { IfSome result (Pops self.old self.new link) }
        ensures number { length self.new.queues ≡ length self.old.queues }
        ensures empty { IfNone result (items_in self.old link ≡ []) }
        ensures same { IfNone result (self.new ≡ self.old) }
    {
        self.pool.pop(link)
    }

    /// The first actor to which something may have been sent since it was put to rest.
    pub(crate) fn first_awake(&self) -> Option<u32> {
        self.awake.first()
    }

    /// An actor that can do nothing is put to rest, until something is sent to it.
    pub(crate) fn rest(&mut self, actor: u32)
        ensures { self.new ≡ self.old }
    {
        self.awake.rest(actor);
    }

    /// Whether nothing is on any link.
    #[tactic(auto, using(crate::proofs::Few::all_empty, crate::proofs::Few::none_counted))]
    pub fn are_empty(&self) -> bool
        ensures { IsTrue result ↔ ((link : ℕ) → items_in self.now link ≡ []) }
    {
        self.pool.cells() == self.pool.spare()
    }
}

impl<L: Drop> Outlet<L> for Links<L> {
    type Rest = ();

    ghost has_link = { λ o link. link < length o.queues };

    ghost lists = { λ o link. items_in o link };

    ghost room_of = { λ o. o.spare };

    ghost rest = { λ _. tt };

    fn room(&self) -> usize {
        self.pool.spare()
    }

    fn make_room(&mut self, count: usize) -> Result<(), NoMemory> {
        self.pool.reserve(count)
    }

    #[tactic(auto, using(crate::proofs::Putting::put_on_its_link))]
    fn send(&mut self, link: u32, stamped: Stamped<L>)
        requires has { link < length self.old.queues }
        requires room { 0 < self.old.spare }
        ensures links { SameLinks (λ k. k < length self.old.queues)
            (λ k. k < length self.new.queues) }
        ensures lists { Sends (λ k. items_in self.old k) ((link, stamped) ∷ [])
            (λ k. items_in self.new k) }
        ensures room { self.old.spare ≤ self.new.spare + 1 }
    {
        self.pool.push(link, stamped);
        if let Some(end) = self.ends.get(link as usize) {
            self.awake.wake(*end);
        }
    }
}
