ghost use Rattle.std.specs.Prelude.{◌≡◌, ◌+◌, ◌<◌, ◌≤◌, ◌↔◌, Bool, false};

use crate::limits::MOST_LIMIT;
use crate::numbers::Numbers;
use abc_value::Grant;
use std::marker::Model;

/// A counter for one thread, which gives 1, 2 and so on up to its limit.
#[derive(Debug, Drop)]
pub struct PlainCounter {
    limit: u32,
    count: u32,
    closed: bool,
}

impl Model for PlainCounter {
    ghost use Rattle.abc_number.specs.Counter.{Counter};

    ghost Value = { Counter };

    ghost use Rattle.abc_number.specs.Bounds.{IsCounter};

    ghost view = { λ c. record { limit = c.limit; count = c.count; closed = c.closed } };

    ghost invariant = { λ c. IsCounter c.limit c.count c.closed };
}

impl PlainCounter {
    /// A counter that has drawn nothing.
    pub fn new(limit: u32) -> PlainCounter
        requires some { 0 < limit }
        requires bounded { limit ≤ MOST_LIMIT }
        ensures limit { result.limit ≡ limit }
        ensures count { result.count ≡ 0 }
        ensures open { result.closed ≡ false }
    {
        PlainCounter {
            limit,
            count: 0,
            closed: false,
        }
    }

    /// How many numbers were drawn.
    pub fn count(&self) -> u32
        ensures count { result ≡ self.now.count }
        ensures within { result ≤ self.now.limit }
    {
        self.count
    }

    /// Whether a draw was answered by Closed.
    pub fn is_closed(&self) -> bool
        ensures { result ≡ self.now.closed }
    {
        self.closed
    }
}

impl Numbers for PlainCounter {
    ghost use Rattle.std.specs.Prelude.{◌≡◌};
    ghost use Rattle.std.proofs.Common.{◌∙◌, refl};
    ghost use Rattle.abc_number.specs.Draws.{Granted, first_numbers};

    ghost limit = { λ c. c.limit };

    ghost drawn = { λ c. first_numbers c.count };

    ghost closed = { λ c. c.closed };

    ghost stays = { λ a b. b.limit ≡ a.limit };

    ghost stays_still = { λ a. refl };

    ghost stays_on = { λ a b c first second. second ∙ first };

    /// Draws the number after the last one, or answers Closed where all up to the limit are drawn.
    fn draw(&mut self) -> Grant
        ensures stays { self.new.limit ≡ self.old.limit }
        ensures limit { self.new.limit ≡ self.old.limit }
        ensures some { 0 < self.new.limit }
        ensures bounded { self.new.limit ≤ MOST_LIMIT }
        ensures granted { Granted self.old.limit (first_numbers self.old.count) self.old.closed result
            (first_numbers self.new.count) self.new.closed }
        ensures closed { (result ≡ Grant.Closed) ↔ (self.old.count ≡ self.old.limit) }
        ensures next { self.old.count < self.old.limit → result ≡ Grant.Number (self.old.count + 1) }
    {
        if self.count == self.limit {
            self.closed = true;
            return Grant::Closed;
        }
        self.count += 1;
        Grant::Number(self.count)
    }
}

fn crosses_threads<T: Send>() {}

/// A counter may go to another thread.
fn counters_cross_threads() {
    crosses_threads::<PlainCounter>();
}
