ghost use Rattle.std.specs.Prelude.{◌≡◌, ◌≤◌, ◌<◌, true};

use abc_number::{Grant, MOST_LIMIT, Numbers, PlainCounter};
use std::marker::Model;

/// The one counter of a network on one thread. It gives 1, 2 and so on, and answers Closed only
/// where it has given all up to its limit.
#[derive(Debug, Drop)]
pub struct OneCounter {
    limit: u32,
    counter: PlainCounter,
}

impl Model for OneCounter {
    ghost use Rattle.abc_number.specs.Counter.{Counter};
    ghost use Rattle.abc_world.specs.OneCounters.{IsOneCounter};

    ghost Value = { Counter };

    ghost view = { λ c. c.counter };

    ghost invariant = { λ c. IsOneCounter c.limit c.counter };
}

impl OneCounter {
    /// A counter that has drawn nothing.
    pub fn new(limit: u32) -> OneCounter
        requires some { 0 < limit }
        requires bounded { limit ≤ MOST_LIMIT }
        ensures limit { result.limit ≡ limit }
        ensures count { result.count ≡ 0 }
    {
        OneCounter {
            limit,
            counter: PlainCounter::new(limit),
        }
    }

    /// The greatest number that it gives.
    pub fn limit(&self) -> u32
        ensures { result ≡ self.now.limit }
    {
        self.limit
    }

    /// How many numbers were drawn.
    pub fn count(&self) -> u32
        ensures count { result ≡ self.now.count }
        ensures all { self.now.closed ≡ true → self.now.count ≡ self.now.limit }
    {
        let _ = &self.limit;
        self.counter.count()
    }
}

impl Numbers for OneCounter {
    ghost use Rattle.std.specs.Prelude.{◌≡◌};
    ghost use Rattle.std.proofs.Common.{◌∙◌, refl};
    ghost use Rattle.abc_number.specs.Draws.{first_numbers};

    ghost limit = { λ c. c.limit };

    ghost drawn = { λ c. first_numbers c.count };

    ghost closed = { λ c. c.closed };

    ghost stays = { λ a b. b.limit ≡ a.limit };

    ghost stays_still = { λ a. refl };

    ghost stays_on = { λ a b c first second. second ∙ first };

    fn draw(&mut self) -> Grant {
        self.counter.draw()
    }
}
