//! Each function's contract is a law, and its body does nothing.
ghost use Rattle.abc_system.specs.RunLaws.{SoloReplays, SoloIsNotRefused, SoloIsARun};

/// The run of a program by the rule of places is one of the calculus. Its choices replay to it.
pub fn solo_replays()
    ensures run { SoloIsARun }
    ensures same { SoloReplays }
    ensures not_refused { SoloIsNotRefused }
{}
