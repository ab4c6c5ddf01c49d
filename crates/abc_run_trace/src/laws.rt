//! Laws, each a clause of a function that does nothing.
ghost use Rattle.abc_run_trace.specs.HasTrace.{SoloRunsHaveTraces, ReplaysHaveTraces};

/// What `trace_of` asks of a program and its run holds of each accepted program and what `solo` gives
/// for it, and of what `replay` gives for it, under the head of a network.
pub fn runs_have_traces()
    ensures solo { SoloRunsHaveTraces }
    ensures replayed { ReplaysHaveTraces }
{}
