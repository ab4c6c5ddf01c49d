//! The contract of the function is a law, and its body does nothing.
ghost use Rattle.abc_program_records.specs.Tells.{TellThePrograms};

/// In a legal record whose bodies are a program's components, of any shape, the choices that the logs
/// tell are a run of the program by the calculus, and the bodies at its end are the components at
/// the end of that run, but for the order in which interfaces list names.
pub fn program_records_are_runs()
    ensures { TellThePrograms }
{}
