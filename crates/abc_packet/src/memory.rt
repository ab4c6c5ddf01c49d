//! An outlet in memory, for tests of those that send.
ghost use Rattle.std.specs.Prelude.{◌≡◌, ◌≤◌, ◌<◌, ◌+◌, List, [], ◌∷◌};
ghost use Rattle.abc_packet.specs.Outlets.{Sends, SameLinks, sent_on};

use crate::outlet::Outlet;
use crate::stamped::Stamped;
use abc_value::NoMemory;
use std::alloc::Global;
use std::marker::Model;

/// An outlet that keeps all that was sent in one list, each packet with its link.
#[derive(Drop)]
pub struct MemoryOutlet<L> {
    links: u32,
    sends: Vec<(u32, Stamped<L>)>,
}

impl<L> Model for MemoryOutlet<L> {
    ghost use Rattle.std.specs.Prelude.{◌-◌, vec_len, vec_capacity};
    ghost use Rattle.abc_packet.specs.Outlets.{Sent};

    ghost Value = { Sent L };

    ghost view = { λ o. record {
      links = o.links;
      sends = o.sends.items;
      room = vec_capacity o.sends - vec_len o.sends;
    } };
}

impl<L> MemoryOutlet<L> {
    /// An outlet with the links below `links`, on which nothing was sent. It takes no memory.
    pub fn new(alloc: Global, links: u32) -> MemoryOutlet<L>
        ensures links { result.links ≡ links }
        ensures sends { result.sends ≡ [] }
        ensures room { result.room ≡ 0 }
    {
        MemoryOutlet {
            links,
            sends: Vec::new(alloc),
        }
    }

    /// All that was sent, in order, each packet with its link.
    pub fn sends(&self) -> &[(u32, Stamped<L>)]
        ensures { result.now ≡ self.now.sends }
    {
        self.sends.as_slice()
    }
}

impl<L> Outlet<L> for MemoryOutlet<L> {
    type Rest = ();

    ghost has_link = { λ o link. link < o.links };

    ghost lists = { λ o link. sent_on link o.sends };

    ghost room_of = { λ o. o.room };

    ghost rest = { λ _. tt };

    fn room(&self) -> usize {
        self.sends.capacity() - self.sends.len()
    }

    fn make_room(&mut self, count: usize) -> Result<(), NoMemory> {
        self.sends.reserve(count)?;
        Ok(())
    }

    #[tactic(auto, using(crate::proofs::Sendings::sent_after_append))]
    fn send(&mut self, link: u32, stamped: Stamped<L>)
        requires has { link < self.old.links }
        requires room { 0 < self.old.room }
        ensures links { SameLinks (λ k. k < self.old.links) (λ k. k < self.new.links) }
        ensures lists { Sends (λ k. sent_on k self.old.sends) ((link, stamped) ∷ []) (λ k. sent_on k self.new.sends) }
        ensures room { self.old.room ≤ self.new.room + 1 }
    {
        self.sends.push_reserved((link, stamped));
    }
}
