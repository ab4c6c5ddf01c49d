//! The law, the contract of a function that does nothing.
ghost use Rattle.abc_parse_laws.specs.EachText.{EachIsAcceptedOrRefused, NoneIsBoth};

/// Each text is accepted as a program, or refused at a place for a cause; and no text is both.
pub fn texts_are_accepted_or_refused()
    ensures either { EachIsAcceptedOrRefused }
    ensures never_both { NoneIsBoth }
{}
