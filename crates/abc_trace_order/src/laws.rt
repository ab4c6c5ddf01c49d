//! The laws, each the contract of a function that does nothing.
ghost use Rattle.abc_trace_order.specs.Laws.{BadTextsAreNone};

/// A text with a bad line is none of a trace.
pub fn bad_texts_are_none()
    ensures { BadTextsAreNone }
{}
