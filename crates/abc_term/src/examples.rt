//! Worked examples: steps of small systems, computed from the rules.

ghost use Rattle.abc_term.specs.Examples.Greeting.{Greets, EndsSilent, CannotBeDiscarded};
ghost use Rattle.abc_term.specs.Examples.HiddenAttribute.{HiddenIsDiscarded};
ghost use Rattle.abc_term.specs.Examples.LabelBeforeUpdate.{OldIsSeen, NewIsNotShown, NewIsNotSeen};
ghost use Rattle.abc_term.specs.Examples.ThisInPredicate.{ThisIsClosed};
ghost use Rattle.abc_term.specs.Examples.Interleaving.{LeftHears, RightHears, NotBothHear, LeftSpeaks, RightSpeaks};
ghost use Rattle.abc_term.specs.Examples.GuardOpened.{OtherBranchOpens, GuardedSpeaks};
ghost use Rattle.abc_term.specs.Examples.Overflow.{OverflowRemoves, NoneIsNotLess};
ghost use Rattle.abc_term.specs.Examples.Colouring.{FirstColour, SecondColour, ColouringRuns, ColouringEnds};
ghost use Rattle.abc_term.specs.Examples.ReadsBeforeUpdate.{OldIsRead};
ghost use Rattle.abc_term.specs.Examples.PassedOn.{ValueIsPut, IsPassedOn};
ghost use Rattle.abc_term.specs.Examples.OtherLength.{OnlySameLength};
ghost use Rattle.abc_term.specs.Examples.BoundAnew.{OuterStopsThere, InnerIsItsOwn};
ghost use Rattle.abc_term.specs.Examples.TwoWays.{LeftTellsRight, RightTellsLeft};
ghost use Rattle.abc_term.specs.Examples.NobodySpeaks.{PassingStays, NobodyPasses, NobodySpeaks, NothingIsHeard};
ghost use Rattle.abc_term.specs.Examples.Calling.{NamesCalled, NamesCalledAtOnce, ReachedByCalls, NotReachedAtOnce, KEnds, MNeverEnds};

/// Steps that the example systems make, each with its label and the system after it.
pub fn worked_steps()
    ensures greeting { Greets }
    ensures greeting_ends { EndsSilent }
    ensures hidden_attribute { HiddenIsDiscarded }
    ensures label_before_update { OldIsSeen }
    ensures this_in_predicate { ThisIsClosed }
    ensures interleaving_left { LeftHears }
    ensures interleaving_right { RightHears }
    ensures interleaving_left_speaks { LeftSpeaks }
    ensures interleaving_right_speaks { RightSpeaks }
    ensures reads_before_update { OldIsRead }
    ensures passed_on { ValueIsPut }
    ensures passed_on_then { IsPassedOn }
    ensures other_length { OnlySameLength }
    ensures bound_anew { OuterStopsThere }
    ensures bound_anew_then { InnerIsItsOwn }
    ensures two_ways_left { LeftTellsRight }
    ensures two_ways_right { RightTellsLeft }
    ensures passing { PassingStays }
    ensures guard_opened { OtherBranchOpens }
    ensures guard_opened_then { GuardedSpeaks }
    ensures overflow { OverflowRemoves }
    ensures overflow_then { NoneIsNotLess }
    ensures colouring { FirstColour }
    ensures colouring_then { SecondColour }
    ensures colouring_whole { ColouringRuns }
    ensures colouring_ends { ColouringEnds }
{}

/// Steps that they don't make: a discard where an input takes the message, a label with the
/// updated attribute, a hearing of it, both branches of an interleaving hearing one message, a step of
/// a component that isn't there, and a hearing where nobody speaks.
pub fn what_is_no_step()
    ensures discard_of_a_match { CannotBeDiscarded }
    ensures updated_label { NewIsNotShown }
    ensures updated_heard { NewIsNotSeen }
    ensures both_branches { NotBothHear }
    ensures nobody_passes { NobodyPasses }
    ensures nobody_speaks { NobodySpeaks }
    ensures nothing_is_heard { NothingIsHeard }
{}

/// Which names a process calls, which of them with no action before the call, and what is reached so.
pub fn worked_calls()
    ensures all { NamesCalled }
    ensures unguarded { NamesCalledAtOnce }
    ensures reached { ReachedByCalls }
    ensures not_reached { NotReachedAtOnce }
    ensures ends { KEnds }
    ensures never_ends { MNeverEnds }
{}
