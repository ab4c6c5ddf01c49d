//! The laws, each the contract of a function that does nothing.
ghost use Rattle.abc_trace_laws.specs.Laws.{TraceAnswersAreOne, TraceAnswersAreRenumbered};
ghost use Rattle.abc_trace_laws.specs.Laws.{TracesAreOne, WrittenIsReadBack};

/// A text fixes its trace, where names are numbered as their words are met.
pub fn traces_are_one()
    ensures { TracesAreOne }
{}

/// So bytes fix what reading them answers, but for want of memory.
pub fn trace_answers_are_one()
    ensures { TraceAnswersAreOne }
{}

/// The text of a well-formed trace is read as that trace, its names numbered as they are met.
pub fn written_is_read_back()
    ensures { WrittenIsReadBack }
{}

/// So reading the text of a well-formed trace answers that, or want of memory.
pub fn trace_answers_are_renumbered()
    ensures { TraceAnswersAreRenumbered }
{}
