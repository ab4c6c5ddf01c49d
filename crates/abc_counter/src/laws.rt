//! Each function's contract is a law, and its body does nothing.
ghost use Rattle.abc_counter.specs.Laws.{BeginsByTheRule, StepsKeepTheRule, WholeKnowsAll};
ghost use Rattle.abc_counter.specs.Worked.{TwoSeatsDrawTwo};

/// A counter begins by its rule, and every kind of step keeps it.
pub fn counters_keep_their_rule()
    ensures begin { BeginsByTheRule }
    ensures kept { StepsKeepTheRule }
{}

/// A seat that stands for all seat numbers has all numbers that were drawn: they are the first
/// ones, each once.
pub fn the_whole_knows_all()
    ensures { WholeKnowsAll }
{}

/// A counter with limit 2 and two seats, which draw 1 and 2 and are then closed.
pub fn worked_counter()
    ensures { TwoSeatsDrawTwo }
{}
