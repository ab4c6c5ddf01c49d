//! The trace of a run.
ghost use Rattle.std.specs.Prelude.{◌≡◌, ◌≤◌, length, IfOk};
ghost use Rattle.abc_traceable.specs.Traceable.{IsTraceable};
ghost use Rattle.abc_system.specs.Runs.{IsRunOf, rows_of};
ghost use Rattle.abc_trace.specs.Texts.{limit_of};
ghost use Rattle.abc_trace.specs.WellFormed.{HeadIsWellFormed, nodes_of};
ghost use Rattle.abc_run_trace.specs.TraceOf.{AllFitHead, IsTraceOf};

use crate::lines::{add_finals, tell_steps};
use abc_system::Run;
use abc_term::Program;
use abc_trace::{Head, Trace};
use abc_value::{List, NoMemory};
use std::alloc::Global;

/// The trace of a run of a program, under a head and with how many packets each sequencing node
/// handled.
///
/// The run is one that `solo` or `replay` gives for an accepted program, of at most as many steps as
/// the head's limit; under the head of a run on one thread no step is empty. The trace has the
/// program's names, and its steps are numbered from 1 in order. `NoMemory` may come of any run.
pub fn trace_of(
    alloc: Global,
    program: &Program,
    head: &Head,
    steps: &Run,
    handled: &[u64],
) -> Result<Trace, NoMemory>
    requires program { IsTraceable program.now }
    requires run { IsRunOf program.now steps.now }
    requires head { HeadIsWellFormed head.now }
    requires count { length steps.now.steps ≤ limit_of head.now }
    requires said { AllFitHead head.now (rows_of steps.now) }
    requires handled { length handled.now ≡ nodes_of head.now }
    ensures { IfOk result (λ t. IsTraceOf program.now head.now steps.now handled.now t) }
{
    let mut names = List::new(alloc);
    names.extend_from_slice(program.names.as_slice())?;
    let lines = tell_steps(alloc, program, steps.steps.as_slice())?;
    let mut finals = List::new(alloc);
    let components = program.components.as_slice();
    add_finals(alloc, components, steps.finals.as_slice(), &mut finals)?;
    let mut packets = List::new(alloc);
    packets.extend_from_slice(handled)?;
    Ok(Trace {
        names,
        head: *head,
        lines,
        finals,
        handled: packets,
    })
}
