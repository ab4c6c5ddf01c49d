//! Each function's contract is a law, and its body does nothing.
ghost use Rattle.abc_network.specs.LinkLaws.{LinksHaveTheirEnds};
ghost use Rattle.abc_network.specs.Worked.{WorkedEvents};

/// The links on which agents and nodes send are those of the plans' tables.
pub fn links_have_their_ends()
    ensures { LinksHaveTheirEnds }
{}

/// A run of a cluster, followed through the definitions, and three events that are none.
pub fn worked_events()
    ensures { WorkedEvents }
{}
