//! The laws, each the contract of a function that does nothing.
ghost use Rattle.abc_printed_laws.specs.Grammar.{PrintsAreTerms, ProgramsHaveValues};
ghost use Rattle.abc_printed_laws.specs.Kept.{NamesAreKept};
ghost use Rattle.abc_printed_laws.specs.Outputs.{OutputsStand};

/// What is printed of a term whose literals are values is of the grammar, with that term.
pub fn prints_are_terms()
    ensures { PrintsAreTerms }
{}

/// The literals of an accepted program are values.
pub fn programs_have_values()
    ensures { ProgramsHaveValues }
{}

/// A text and its print have the same names in the same order.
pub fn names_are_kept()
    ensures { NamesAreKept }
{}

/// The predicate of each output stands in round brackets in every text of its program.
pub fn outputs_stand()
    ensures { OutputsStand }
{}
