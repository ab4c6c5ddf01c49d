//! Laws of the definitions, each the contract of a function that does nothing.
ghost use Rattle.abc_packet.specs.Laws.{OneSending, SendingsAddUp, WorkedLogs};

/// What sendings do to the lists of an outlet: one appends to its own link's list and leaves the
/// others, and some and then others are all of them.
pub fn sendings_append<L>()
    ensures one { OneSending L }
    ensures many { SendingsAddUp L }
{}

/// Which logs rise, worked on both sides.
pub fn worked_logs()
    ensures { WorkedLogs }
{}
