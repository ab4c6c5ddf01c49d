//! Each function's contract is a law, and its body does nothing.

ghost use Rattle.abc_checks_laws.specs.FirstFacts.{EachIsCheckedOrBad, NoneIsBoth, FactsHoldAtSites};

/// Each program is free of all facts of the checks, or there is a first one, with its cause and its
/// site; and no program is both.
pub fn programs_are_checked_or_bad()
    ensures either { EachIsCheckedOrBad }
    ensures never_both { NoneIsBoth }
{}

/// A fact of the checks holds at a definition or a component that the program has, or of the whole
/// program.
pub fn facts_hold_at_sites()
    ensures { FactsHoldAtSites }
{}
