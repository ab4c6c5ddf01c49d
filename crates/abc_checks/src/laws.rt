//! What a checked program gives, and the limits as numbers: each function's contract is a law, and its
//! body does nothing.

ghost use Rattle.std.specs.Prelude.{◌≡◌};
ghost use Rattle.abc_checks.specs.Worked.{ParsAreFound, RepeatsAreFound, WidthsAreCounted, WidthsAreCapped, WidthsHaveALimit, BreadthsAreCounted, BreadthsAreCapped, BreadthsHaveALimit, ComponentsHaveALimit};
ghost use Rattle.abc_checks.specs.CheckedLaws.{CallsHaveBodies, CheckedCallsEnd, WidthsAreSmall};

use crate::limits::{BROADEST, MOST_COMPONENTS, WIDEST};

/// The limits that the facts of the checks speak of: 256 components, a width of 64 and a breadth of 2,048.
pub fn limits_are_these()
    ensures components { MOST_COMPONENTS ≡ 256 }
    ensures width { WIDEST ≡ 64 }
    ensures breadth { BROADEST ≡ 2048 }
{}

/// What small processes count as, and what is within the limits and what isn't.
pub fn worked_counts()
    ensures pars { ParsAreFound }
    ensures repeats { RepeatsAreFound }
    ensures widths { WidthsAreCounted }
    ensures capped_widths { WidthsAreCapped }
    ensures width_limit { WidthsHaveALimit }
    ensures breadths { BreadthsAreCounted }
    ensures capped_breadths { BreadthsAreCapped }
    ensures breadth_limit { BreadthsHaveALimit }
    ensures component_limit { ComponentsHaveALimit }
{}

/// Every call of a checked program has a body.
pub fn calls_have_bodies()
    ensures { CallsHaveBodies }
{}

/// The unguarded calls of a checked program come to an end.
pub fn checked_calls_end()
    ensures { CheckedCallsEnd }
{}

/// The components of a checked program are at most 64 wide.
pub fn widths_are_small()
    ensures { WidthsAreSmall }
{}
