//! Each function's contract is a law, and its body does nothing.
ghost use Rattle.abc_wait.specs.Laws.{AreTheirItems, NothingPast};

/// Two wait lists with the same first number and the same item under each number are the same.
pub fn wait_lists_are_their_items<T>()
    ensures { AreTheirItems T }
{}

/// Under a number that is past nothing waits.
pub fn nothing_past_waits<T>()
    ensures { NothingPast T }
{}
