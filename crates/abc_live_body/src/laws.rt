//! Each function's contract is a law, and its body does nothing.
ghost use Rattle.abc_live_body.specs.AbcLaws.{StepsAreTheCalculus, RunsAreTheCalculus};
ghost use Rattle.abc_live_body.specs.AbcLaws.{BodiesBeginSound, ProgramsRunAsBodies};

/// The bodies of components under the same definitions step and run just as the calculus says that
/// these components do, by the same choices.
pub fn bodies_run_as_the_calculus()
    ensures steps { StepsAreTheCalculus }
    ensures runs { RunsAreTheCalculus }
{}

/// All components of a checked program, as bodies start them, are sound and are its first system, and
/// their runs are those of the program.
pub fn program_bodies_begin_sound()
    ensures sound { BodiesBeginSound }
    ensures runs { ProgramsRunAsBodies }
{}
