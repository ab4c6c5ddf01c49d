//! A worked example: a trace, renumbered.
ghost use Rattle.abc_trace_laws.specs.Examples.{WorkedRenumbering};

/// A trace whose names stand in another order, with a word that its text doesn't have.
pub fn worked_renumbering()
    ensures { WorkedRenumbering }
{}
