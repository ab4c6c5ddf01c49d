//! Laws of the definitions, each the contract of a function that does nothing.
ghost use Rattle.abc_value.specs.Worked.{SetOperators};
ghost use Rattle.abc_value.specs.Limits.{LimitsOfValues};
ghost use Rattle.abc_value.specs.Laws.{SetsAreTheirMembers, MembersStand, SetsOfLists, Unions, Differences, LeastFreeNumbers, MembersAreOrdered, SameIsEquality, LiteralsDiffer, WrittenIsRead};

/// Two sets are the same exactly where they have the same members.
pub fn sets_are_their_members()
    ensures { SetsAreTheirMembers }
{}

/// A scalar that stands among the members is one.
pub fn members_stand()
    ensures { MembersStand }
{}

/// The set of a list has just the list's scalars.
pub fn sets_of_lists()
    ensures { SetsOfLists }
{}

/// A union has the members of either set.
pub fn unions()
    ensures { Unions }
{}

/// A difference has the members of the first set that the second has not.
pub fn differences()
    ensures { Differences }
{}

/// The least free number is no member, and each below it is one.
pub fn least_free_numbers()
    ensures { LeastFreeNumbers }
{}

/// Members stand as they are printed: numbers, texts, false, true.
pub fn members_are_ordered()
    ensures { MembersAreOrdered }
{}

/// `same` is equality, and none equals none.
pub fn same_is_equality()
    ensures { SameIsEquality }
{}

/// No two values are written alike.
pub fn literals_differ()
    ensures { LiteralsDiffer }
{}

/// What is written is read back, whatever follows that can't go on with it.
pub fn written_is_read()
    ensures { WrittenIsRead }
{}

/// The operators on sets, worked on one example.
pub fn set_operators()
    ensures { SetOperators }
{}

/// The limits of sets, texts and numbers, worked on both sides of each.
pub fn limits_of_values()
    ensures { LimitsOfValues }
{}
