//! A law of lines, the contract of a function that does nothing.
ghost use Rattle.abc_trace_lines.specs.Spelled.{LinesAreOne};

/// A line's text fixes what it says.
pub fn lines_are_one()
    ensures { LinesAreOne }
{}
