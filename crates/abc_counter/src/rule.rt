//! The rule that a counter's word and its seats keep, and what each kind of step tells its caller.
use crate::views::{CounterTerms, SeatView};
use atomic_table::{Join, Play, Split, TableRule};

/// The rule of `specs/Rule.antt`, of a table with one word and no slots.
pub struct CounterRule;

impl TableRule<u8, SeatView, CounterTerms> for CounterRule {
    ghost use Rattle.abc_counter.specs.Rule.{KeepsTable, first_view};

    ghost holds = { λ terms s. KeepsTable terms s };

    ghost first = { first_view };
}

/// A draw: the view gains the number, or is closed.
pub struct DrawStep;

impl Play<u8, SeatView> for DrawStep {
    ghost use Rattle.abc_counter.specs.Rule.{DrawTells};

    ghost then = { DrawTells };
}

/// The new seat has one of the seat numbers.
pub struct SeatSplit;

impl Split<SeatView> for SeatSplit {
    ghost use Rattle.abc_counter.specs.Steps.{without_first, first_alone};

    ghost left = { without_first };

    ghost right = { first_alone };
}

/// One seat takes another in.
pub struct SeatJoin;

impl Join<SeatView> for SeatJoin {
    ghost use Rattle.abc_counter.specs.Steps.{joined, spent};

    ghost both = { joined };

    ghost spent = { spent };
}
