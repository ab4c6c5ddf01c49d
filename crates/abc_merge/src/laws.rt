//! Each function's contract is a law, and its body does nothing.
ghost use Rattle.abc_merge.specs.Laws.{MergesAreOne};

/// Logs have one merge.
pub fn merges_are_one<L>()
    ensures { MergesAreOne L }
{}
