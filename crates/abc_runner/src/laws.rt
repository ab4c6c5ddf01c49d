//! Laws of the definitions, each the contract of a function that does nothing.
ghost use Rattle.abc_runner.specs.Limits.{LimitsOfCommands};
ghost use Rattle.abc_runner.specs.Laws.{OneOfText, OneAnswer, SoloTells, DoneTells};

/// The limits of a source and of the numbers in a command, worked on both sides of each.
pub fn limits_of_commands()
    ensures { LimitsOfCommands }
{}

/// To a command and a text there is one answer, want of memory aside: its status and what is due to the
/// sink. So there is to words and a source that tells its bytes and does not fail. For a network there
/// is one to each record.
pub fn answers_are_one()
    ensures texts { OneOfText }
    ensures answers { OneAnswer }
{}

/// What `solo` prints is the trace of one run of the calculus, that of the program which the whole source
/// is accepted as, its limit and its pick.
pub fn solo_in_its_own_words()
    ensures tells { SoloTells }
    ensures done { DoneTells }
{}
