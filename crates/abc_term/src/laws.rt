//! Laws of the rules, each proved as the contract of a function that does nothing.

ghost use Rattle.abc_term.specs.Laws.{SpeakingHasItsPlaces, SpeakingIsDetermined, HearingHasItsPlaces, HearingIsDetermined, GuardedCallsEnd, CallsCountAsTheirBodies, CallsSpeakAsTheirBodies, CallsHearAsTheirBodies, HearingExists, DiscardIsTheRest, OnlyTheMeantReceive, FalseIsHeardByNobody, FalseHasNoHearers, MulticastByNumber, ListedHear, ListedRise, SenderExists, MulticastIsDetermined, StepIsDetermined, RunIsDetermined, OutputIsNeverRefused, OutputNeedsNoReceiver, SpeakingKeepsMaps, LabelsShowMaps, HearingKeepsMaps, RunsKeepMaps, ProgramsBeginWithMaps, PutPredicateIsBound, PutPredicateCloses, PutExpressionIsBound, PuttingTwice, PuttingNothing};

/// The places of a component's outputs, and those of its inputs that take a message, are numbered
/// from 0 without gap, and each has exactly one move.
pub fn each_place_has_one_move()
    ensures outputs { SpeakingHasItsPlaces }
    ensures one_output { SpeakingIsDetermined }
    ensures inputs { HearingHasItsPlaces }
    ensures one_input { HearingIsDetermined }
{}

/// A call whose unguarded calls end has just the moves of its definition's body, and they end where
/// each called name has a definition and none reaches itself by unguarded calls.
pub fn calls_are_their_bodies()
    ensures calls_end { GuardedCallsEnd }
    ensures counts { CallsCountAsTheirBodies }
    ensures outputs { CallsSpeakAsTheirBodies }
    ensures inputs { CallsHearAsTheirBodies }
{}

/// Every component hears every message, and discards it exactly where it can't receive it.
pub fn every_message_is_heard()
    ensures exists { HearingExists }
    ensures discard { DiscardIsTheRest }
{}

/// Only those whom the sender's predicate means receive, and nobody where it is `ff`.
pub fn only_the_meant_receive()
    ensures meant { OnlyTheMeantReceive }
    ensures nobody { FalseIsHeardByNobody }
    ensures no_hearers { FalseHasNoHearers }
{}

/// In a multicast the component with the sender's number speaks, and each other one hears.
pub fn each_component_moves()
    ensures { MulticastByNumber }
{}

/// The sender of a step and the hearers that it lists are components, each listed once, and each hears
/// at the place that it is listed with.
pub fn who_is_listed_hears()
    ensures sender { SenderExists }
    ensures hearers { ListedHear }
    ensures rising { ListedRise }
{}

/// A system and a choice of sender, place and hearers determine the label and the next system.
pub fn choices_determine_steps()
    ensures multicast { MulticastIsDetermined }
    ensures step { StepIsDetermined }
    ensures run { RunIsDetermined }
{}

/// An output waits for nobody: it is a step whoever hears it, and also where nobody can.
pub fn no_output_is_refused()
    ensures always { OutputIsNeverRefused }
    ensures unheard { OutputNeedsNoReceiver }
{}

/// Environments are finite maps at the start of a program and stay so, and so is what labels show.
pub fn environments_are_maps()
    ensures first { ProgramsBeginWithMaps }
    ensures speaking { SpeakingKeepsMaps }
    ensures labels { LabelsShowMaps }
    ensures hearing { HearingKeepsMaps }
    ensures runs { RunsKeepMaps }
{}

/// Values put for the variables of a process mean what bindings beside it mean.
pub fn substitution_is_binding()
    ensures truth { PutPredicateIsBound }
    ensures closing { PutPredicateCloses }
    ensures value { PutExpressionIsBound }
    ensures twice { PuttingTwice }
    ensures nothing { PuttingNothing }
{}
