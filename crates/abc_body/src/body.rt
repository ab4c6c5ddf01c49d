ghost use Rattle.std.specs.Prelude.{◌≡◌, MatchBool, IfOk, OnErr};
ghost use Rattle.abc_body.specs.Meanings.{Meaning, CanSpeak, SpeaksSoundly, HearsSoundly, HearsAll};

use abc_packet::{NoMemory, Owner};
use std::alloc::Global;

/// A machine that says labels and hears those of others.
///
/// Its `meaning` says which states it can have, how it speaks and hears in them, and which place a
/// turn picks. The laws: speaking and hearing lead from sound states to sound states, and in a
/// sound state every label is heard in some way.
pub trait Body: Drop + Send {
    /// What a body says.
    type Label: Drop + Send + Sync;

    ghost meaning: { Meaning Self Self.Label };

    /// Whether there is a speaking.
    fn can_speak(&self) -> bool
        requires { meaning.sound self.now }
        ensures { MatchBool result (CanSpeak meaning self.now) (¬ CanSpeak meaning self.now) };

    /// Speaks at the place that the turn picks. It answers the place and two owners of the label
    /// that was said. After NoMemory the state is as before.
    fn speak(
        &mut self,
        alloc: Global,
        turn: u64,
    ) -> Result<(u32, Owner<Self::Label>, Owner<Self::Label>), NoMemory>
        requires sound { meaning.sound self.old }
        requires can { CanSpeak meaning self.old }
        ensures spoke { IfOk result (λ said. meaning.speaks self.old said.0 said.1 self.new) }
        ensures same { IfOk result (λ said. said.2 ≡ said.1) }
        ensures place { IfOk result (λ said. meaning.placed self.old None turn (Some said.0)) }
        ensures sound { meaning.sound self.new }
        ensures err { OnErr result (self.new ≡ self.old) };

    /// Hears a label at the place that the turn picks, or at none where the body discards it. It
    /// answers that place. After NoMemory the state is as before.
    fn hear(
        &mut self,
        alloc: Global,
        label: &Self::Label,
        turn: u64,
    ) -> Result<Option<u32>, NoMemory>
        requires { meaning.sound self.old }
        ensures heard { IfOk result (λ place. meaning.hears self.old label.now place self.new) }
        ensures place { IfOk result (λ place. meaning.placed self.old (Some label.now) turn place) }
        ensures sound { meaning.sound self.new }
        ensures err { OnErr result (self.new ≡ self.old) };

    ghost speaks_soundly: { SpeaksSoundly meaning };

    ghost hears_soundly: { HearsSoundly meaning };

    ghost hears_all: { HearsAll meaning };
}
