//! Laws of the definitions, each the contract of a function that does nothing.
ghost use Rattle.abc_print.specs.Literals.{LiteralsAreOne};

/// The table of forms prints a literal as `abc_value` writes it.
pub fn literals_are_one()
    ensures { LiteralsAreOne }
{}
