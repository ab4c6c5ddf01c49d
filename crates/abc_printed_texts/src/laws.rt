//! The laws, each the contract of a function that does nothing.
ghost use Rattle.abc_printed_texts.specs.Read.{PrintsAreRead};
ghost use Rattle.abc_printed_texts.specs.ReadBack.{PrintsAreAccepted, PrintsAreCanonical, OutputsAreRead};

/// The bytes of a print are tokens that stand for its lexemes.
pub fn prints_are_read()
    ensures { PrintsAreRead }
{}

/// The print of an accepted program is accepted as that program, with the same names in the same numbers.
pub fn prints_are_accepted()
    ensures { PrintsAreAccepted }
{}

/// Programs of texts print alike exactly where they are alike.
pub fn prints_are_canonical()
    ensures { PrintsAreCanonical }
{}

/// The predicate of each output of an accepted program, closed under any values and printed, is read back
/// to its end, where the program's names have their numbers, and no name is added.
pub fn outputs_are_read()
    ensures { OutputsAreRead }
{}
