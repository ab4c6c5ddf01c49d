//! Each function's contract is a law, and its body does nothing.
ghost use Rattle.abc_number.specs.Laws.{FirstNumbersRise, FirstNumbersAreAll};

/// The first numbers rise, so none is among them twice, and they are all from 1 to their count.
pub fn first_numbers_are_drawn_once()
    ensures rise { FirstNumbersRise }
    ensures all { FirstNumbersAreAll }
{}
