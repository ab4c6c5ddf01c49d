//! Each function's contract is a law, and its body does nothing.

ghost use Rattle.abc_steps.specs.TurnLaws.{TurnsAreRuns, TurnsEnd, TurnsExist, TurnsAreDetermined, AlikeMulticasts, AlikeTurns};
ghost use Rattle.abc_steps.specs.RowLaws.{RowsTellRuns, RunsHaveRows, RowsAreDetermined, AlikeRows, TurnsTellRuns, TurnRowsAreTurns, TurnsHaveRows, AlikeTurnRows};
ghost use Rattle.abc_steps.specs.RowExamples.{PassedThenSaid, NotSaid, TwoTurnRows};
ghost use Rattle.abc_steps.specs.TurnExamples.{TwoTurns, SecondBranch, SecondOutput};

/// What runs by the rule of places is a run of the calculus, and it ends where no component can speak or
/// at the limit.
pub fn turns_are_runs()
    ensures runs { TurnsAreRuns }
    ensures ends { TurnsEnd }
{}

/// For each system, limit and first turn there is exactly one run by the rule of places.
pub fn turns_fix_the_run()
    ensures exists { TurnsExist }
    ensures determined { TurnsAreDetermined }
{}

/// Of an interface it matters only which names it lists.
pub fn alike_systems_run_alike()
    ensures steps { AlikeMulticasts }
    ensures runs { AlikeTurns }
{}

/// What rows tell is a run, each run is told by rows, and the run's choices determine them with their
/// labels.
pub fn rows_are_runs()
    ensures runs { RowsTellRuns }
    ensures exist { RunsHaveRows }
    ensures determined { RowsAreDetermined }
{}

/// Rows by the rule of places are the run by that rule, where they end as it does, and there are such
/// rows.
pub fn turn_rows_are_turns()
    ensures rows { TurnsTellRuns }
    ensures turns { TurnRowsAreTurns }
    ensures exist { TurnsHaveRows }
{}

/// From systems that are alike the same rows tell runs.
pub fn alike_systems_have_the_same_rows()
    ensures rows { AlikeRows }
    ensures turns { AlikeTurnRows }
{}

/// Runs by the rule of places, computed.
pub fn worked_turns()
    ensures two_turns { TwoTurns }
    ensures second_branch { SecondBranch }
    ensures second_output { SecondOutput }
{}

/// Rows of two steps, computed.
pub fn worked_rows()
    ensures passed_then_said { PassedThenSaid }
    ensures not_said { NotSaid }
    ensures two_turns { TwoTurnRows }
{}
