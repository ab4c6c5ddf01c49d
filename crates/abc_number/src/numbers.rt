ghost use Rattle.std.specs.Prelude.{◌≡◌, ◌<◌, ◌≤◌};

use crate::limits::MOST_LIMIT;
use abc_value::Grant;

/// Who gives numbers from 1 to a limit, which stays.
pub trait Numbers {
    ghost use Rattle.std.specs.Prelude.{ℕ, List, Bool};
    ghost use Rattle.abc_number.specs.Draws.{Granted};

    // the greatest number that may be drawn
    ghost limit: { Self → ℕ };

    // the numbers drawn, in the order of the draws
    ghost drawn: { Self → List ℕ };

    // whether a draw was answered by Closed
    ghost closed: { Self → Bool };

    // the second draws where the first drew before it
    ghost stays: { Self → Self → Type 0 };

    /// Draws a number, or answers that no further one will be drawn here. It takes no memory.
    fn draw(&mut self) -> Grant
        ensures stays { stays self.old self.new }
        ensures limit { limit self.new ≡ limit self.old }
        ensures some { 0 < limit self.new }
        ensures bounded { limit self.new ≤ MOST_LIMIT }
        ensures granted { Granted (limit self.old) (drawn self.old) (closed self.old) result
            (drawn self.new) (closed self.new) };

    // one that draws nothing stays
    ghost stays_still: { (a : Self) → stays a a };

    // two draws one after the other stay
    ghost stays_on: { (a b c : Self) → stays a b → stays b c → stays a c };
}
