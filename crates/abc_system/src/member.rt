//! The components of a system, each with the move that it makes in the step that is being made.
ghost use Rattle.std.specs.Prelude.{◌≡◌, map, All, None};
ghost use Rattle.abc_system.specs.Members.{now_in, then_in, program_of, IsReady};

use abc_moves::{Live, Move};

/// A component, and the move that stands ready to be put in place.
#[derive(Drop)]
pub struct Member<'p> {
    pub live: Live<'p>,
    /// None where it stays as it is.
    pub next: Option<Move<'p>>,
}

impl<'p> Member<'p> {
    /// No move stands ready: the component will stay as it is.
    pub fn stay(&mut self)
        ensures { self.new ≡ record self.old { next = None } }
    {
        if self.next.is_some() {
            self.next = None;
        }
    }

    /// The component makes its move.
    fn put(&mut self)
        requires { IsReady self.old }
        ensures moved { now_in self.new ≡ then_in self.old }
        ensures program { program_of self.new ≡ program_of self.old }
    {
        // Most members stay as they are, and their move is not taken out.
        if self.next.is_none() {
            return;
        }
        if let Some(made) = self.next.take() {
            self.live.put(made);
        }
    }
}

/// All components make their moves.
pub fn put_all(members: &mut [Member<'_>])
    requires { All IsReady members.old }
    ensures moved { map now_in members.new ≡ map then_in members.old }
    ensures program { map program_of members.new ≡ map program_of members.old }
{
    for member in members.iter_mut() {
        member.put();
    }
}
