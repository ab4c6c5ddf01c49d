//! The laws, each the contract of a function that does nothing.
ghost use Rattle.abc_grammar_laws.specs.Short.{TuplesAreShort, SetsAreShort, NoneTooMany};
ghost use Rattle.abc_grammar_laws.specs.Crowding.{ExtraPartsAreCrowded, BeginningsAreWalked};
ghost use Rattle.abc_grammar_laws.specs.Numbered.{NamesAreNumbered};
ghost use Rattle.abc_grammar_laws.specs.Marks.{MarksStand};
ghost use Rattle.abc_grammar_laws.specs.Meeting.{LimitsMeet};
ghost use Rattle.abc_grammar_laws.specs.NamePlaces.{PlacesAreNamed};

/// In an accepted text each output has at most eight expressions, each input at most eight variables,
/// and each set literal at most 256 scalars as it is written.
pub fn limits_hold()
    ensures tuples { TuplesAreShort }
    ensures sets { SetsAreShort }
{}

/// Each name that an accepted program holds has a number below the number of its names.
pub fn names_are_numbered()
    ensures { NamesAreNumbered }
{}

/// In a text of the grammar an `@` stands behind the tuple of an output alone, of lists in brackets only
/// the variables of an input are followed by a `.`, and a `{` before scalars and a comma opens a set
/// literal.
pub fn marks_stand()
    ensures { MarksStand }
{}

/// No token begins a ninth expression or variable and a 257th scalar at once.
pub fn limits_meet()
    ensures { LimitsMeet }
{}

/// In a text of the grammar whose outputs have at most eight expressions each, and its inputs at most eight
/// variables, no token begins an expression or a variable too many.
pub fn short_tuples_pass_no_limit()
    ensures { NoneTooMany }
{}

/// A part too many stands where a bracket is crowded: none does among tokens of which none stands in a
/// crowded bracket, and where the tokens before it begin a text, the first token that does begins one.
pub fn extra_parts_are_crowded()
    ensures { ExtraPartsAreCrowded }
{}

/// In a text of the grammar each definition and each component has one place: the i-th place is that of the
/// name of the i-th, right behind the i-th `def` or `comp`, and these words stand nowhere else.
pub fn places_are_named()
    ensures { PlacesAreNamed }
{}

/// The walk that finds crowded brackets goes over all tokens that begin a text, crowded brackets aside.
pub fn beginnings_are_walked()
    ensures { BeginningsAreWalked }
{}
