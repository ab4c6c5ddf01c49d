//! The laws, each the contract of a function that does nothing.
ghost use Rattle.abc_traceable.specs.Told.{NamesAreTold, RunsAreTold};
ghost use Rattle.abc_traceable.specs.Traceable.{AcceptedAreTraceable};

/// Each accepted program is one whose runs can be told by traces.
pub fn accepted_are_traceable()
    ensures { AcceptedAreTraceable }
{}

/// In each run of a traceable program what is said is values and a predicate that can be printed and
/// read back, places are small, senders and hearers are components, and environments hold values.
pub fn runs_are_told()
    ensures { RunsAreTold }
{}

/// The components of a traceable program have names, all different.
pub fn names_are_told()
    ensures { NamesAreTold }
{}
