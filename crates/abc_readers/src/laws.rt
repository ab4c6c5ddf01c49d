//! Laws of what is read, each the contract of a function that does nothing.
ghost use Rattle.abc_readers.specs.Laws.{LiteralsAreRead, OperandsAreRead, ExprsAreRead, PredsAreRead, ProgramsAreRead};

/// Operands are read as the grammar has them: what is read is an operand, what is an operand is read,
/// and a refusal is at the first token with which none goes on.
pub fn operands_are_read()
    ensures { OperandsAreRead }
{}

/// Literals are read as the grammar has them, likewise.
pub fn literals_are_read()
    ensures { LiteralsAreRead }
{}

/// Expressions are read as the grammar has them, likewise.
pub fn exprs_are_read()
    ensures { ExprsAreRead }
{}

/// Predicates are read as the grammar has them, likewise.
pub fn preds_are_read()
    ensures { PredsAreRead }
{}

/// Programs are read as the grammar has them, to the end of the tokens, likewise.
pub fn programs_are_read()
    ensures { ProgramsAreRead }
{}
