//! The laws, each the contract of a function that does nothing.
ghost use Rattle.abc_printed_limits.specs.Within.{PrintsAreWithin, ClosedPrintsAreWithin};

/// What is printed of a program is within the limits of texts where some text of it is.
pub fn prints_are_within()
    ensures { PrintsAreWithin }
{}

/// The predicate of each output, closed under any values, is printed within the limits of a predicate that
/// stands alone.
pub fn closed_prints_are_within()
    ensures { ClosedPrintsAreWithin }
{}
