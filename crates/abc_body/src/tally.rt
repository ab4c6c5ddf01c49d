//! A counter as a body: what the network promises leans on no calculus.
ghost use Rattle.std.specs.Prelude.{◌≡◌, ◌≤◌, ◌%◌};
ghost use Rattle.abc_body.specs.Tallies.{tally};

use crate::body::Body;
use abc_packet::{NoMemory, Owner};
use std::alloc::Global;
use std::marker::Model;

/// The greatest count. A tally that has it is silent and discards all labels.
pub const FULL: u32 = 9;

/// A body that counts what it says and hears, from 0 up to `FULL`. It says its count.
#[derive(Debug, Drop)]
pub struct Tally {
    count: u32,
}

impl Model for Tally {
    ghost use Rattle.std.specs.Prelude.{ℕ};

    ghost Value = { ℕ };

    ghost view = { λ t. t.count };
}

impl Tally {
    /// A tally with this count.
    pub fn new(count: u32) -> Tally
        requires { count ≤ FULL }
        ensures { result ≡ count }
    {
        Tally { count }
    }

    /// The count.
    pub fn count(&self) -> u32
        ensures { result ≡ self.now }
    {
        self.count
    }
}

/// The place that the turn picks of two.
fn place_at(turn: u64) -> u32
    ensures { result ≡ turn % 2 }
{
    (turn % 2) as u32
}

impl Body for Tally {
    type Label = u32;

    ghost use Rattle.abc_body.specs.TallyLaws.{tally_speaks, tally_hears, tally_hears_all};

    ghost meaning = { tally };

    ghost speaks_soundly = { tally_speaks };

    ghost hears_soundly = { tally_hears };

    ghost hears_all = { tally_hears_all };

    fn can_speak(&self) -> bool {
        self.count < FULL
    }

    fn speak(
        &mut self,
        alloc: Global,
        turn: u64,
    ) -> Result<(u32, Owner<u32>, Owner<u32>), NoMemory> {
        let said = Owner::new(alloc, self.count)?;
        let logged = said.copy()?;
        self.count += 1;
        Ok((place_at(turn), said, logged))
    }

    fn hear(&mut self, _alloc: Global, _label: &u32, turn: u64) -> Result<Option<u32>, NoMemory> {
        if self.count < FULL {
            self.count += 1;
            Ok(Some(place_at(turn)))
        } else {
            Ok(None)
        }
    }
}
