//! Laws of systems of bodies, each the contract of a function that does nothing.
ghost use Rattle.abc_body.specs.Laws.{RestingIsStaying, RunsFollow, RunsStaySound};
ghost use Rattle.abc_body.specs.Laws.{SpeakingsAreSteps, WorkedRuns};

use crate::body::Body;

/// Between two steps bodies stay as they are: they have no moves of their own so far.
pub fn resting_is_staying<B>()
    ensures { RestingIsStaying B }
{}

/// A run and then another are one run.
pub fn runs_follow_one_another<B: Body>()
    ensures { RunsFollow B.meaning }
{}

/// A run of bodies leads from sound states to sound states.
pub fn runs_stay_sound<B: Body>()
    ensures { RunsStaySound B.meaning }
{}

/// No speaking waits for a hearer: it always has its step.
pub fn speakings_are_steps<B: Body>()
    ensures { SpeakingsAreSteps B.meaning }
{}

/// Runs of three tallies, followed through the definitions.
pub fn worked_runs()
    ensures { WorkedRuns }
{}
