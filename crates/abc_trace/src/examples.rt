//! Worked examples: traces and their text.

ghost use Rattle.abc_trace.specs.Examples.{WorkedHeads, WorkedLines, WorkedEnds, WorkedTraces};

/// The first line of a run on one thread, and of each shape.
pub fn worked_heads()
    ensures { WorkedHeads }
{}

/// Lines of numbers: one heard, two did, nobody did, and nothing was said.
pub fn worked_lines()
    ensures { WorkedLines }
{}

/// Components without and with attributes, a node, and the last line at the limit and below it.
pub fn worked_ends()
    ensures { WorkedEnds }
{}

/// A whole trace on one thread, and one of a network.
pub fn worked_traces()
    ensures { WorkedTraces }
{}
