//! Worked examples: terms and their canonical text.

ghost use Rattle.abc_printed.specs.Examples.{WorkedOperands, WorkedPreds, WorkedProcesses, WorkedProgram};

/// Operands and expressions: brackets on the left and on the right, negative numbers, sets of all kinds.
pub fn worked_operands()
    ensures { WorkedOperands }
{}

/// Predicates: `and` in `or` and the other way round, to the right, and `not`.
pub fn worked_preds()
    ensures { WorkedPreds }
{}

/// Processes: choice and interleaving, guards, outputs and inputs.
pub fn worked_processes()
    ensures { WorkedProcesses }
{}

/// A program of two definitions and two components.
pub fn worked_program()
    ensures { WorkedProgram }
{}
