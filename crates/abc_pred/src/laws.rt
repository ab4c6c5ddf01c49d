//! What the definitions come to: each function's contract is a law, and its body does nothing.

ghost use Rattle.abc_pred.specs.Laws.{MapsAreWhatTheyShow, SettingSets, SettingKeepsTheOthers, SettingGivesAMap, ShownIsTheCut, ShownIsAMap, InterfacesAreTheirNames, ShownByNamesAlone, TruthIsOfTheCutMap, OwnDependsOnOwnAlone, ClosingKeepsTruth, ClosingCloses, ClosingStopsAtClosed, ClosedDependsOnReceiverAlone};
ghost use Rattle.abc_pred.specs.Examples.{ClosedForm, HoldsWhereShown, FailsAtAnotherValue, FailsWhereHidden, UpdateOfASet, FreeOfASet, Overflow, OwnReadsOwnAndVariables, OtherIsNotOwn};

/// A map is its values at all names, and setting a name changes the value at that name alone.
pub fn maps_are_finite_maps()
    ensures extensional { MapsAreWhatTheyShow }
    ensures set { SettingSets }
    ensures others { SettingKeepsTheOthers }
    ensures map { SettingGivesAMap }
{}

/// An interface is a set of names, and what is shown is the map cut to them.
pub fn shown_is_the_cut()
    ensures cut { ShownIsTheCut }
    ensures map { ShownIsAMap }
    ensures set { InterfacesAreTheirNames }
    ensures names_alone { ShownByNamesAlone }
{}

/// A test of the interface at each look gives what the cut map gives.
pub fn truth_is_of_the_cut_map()
    ensures { TruthIsOfTheCutMap }
{}

/// An expression that names no attribute of the other doesn't see the other.
pub fn own_depends_on_own_alone()
    ensures { OwnDependsOnOwnAlone }
{}

/// A closed predicate says anywhere what the open one says in its sender's place.
pub fn closing_keeps_truth()
    ensures { ClosingKeepsTruth }
{}

/// A closed predicate has no own attribute and no variable, so its receiver alone decides it.
pub fn closing_closes()
    ensures closes { ClosingCloses }
    ensures again { ClosingStopsAtClosed }
    ensures receiver { ClosedDependsOnReceiverAlone }
{}

/// Worked examples, each computed from the definitions.
pub fn worked_examples()
    ensures closed { ClosedForm }
    ensures shown { HoldsWhereShown }
    ensures other_value { FailsAtAnotherValue }
    ensures hidden { FailsWhereHidden }
    ensures update { UpdateOfASet }
    ensures free { FreeOfASet }
    ensures overflow { Overflow }
    ensures own { OwnReadsOwnAndVariables }
    ensures others { OtherIsNotOwn }
{}
