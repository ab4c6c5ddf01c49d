//! The laws, each the contract of a function that does nothing.
ghost use Rattle.abc_trace_preds.specs.Reading.{PredsAreOne, PredsStay};

/// The text of a predicate that is sent fixes its words, and it where names have the same numbers.
pub fn preds_are_one()
    ensures { PredsAreOne }
{}

/// More words change nothing of a predicate that has its words.
pub fn preds_stay()
    ensures { PredsStay }
{}
