//! The trace of a run by the rule of places.
ghost use Rattle.std.specs.Prelude.{IfOk, IfSome};
ghost use Rattle.abc_checks.specs.Facts.{IsChecked};
ghost use Rattle.abc_trace.specs.declared.trace.Head.TheVariants.{Solo};
ghost use Rattle.abc_trace.specs.WellFormed.{HeadIsWellFormed};
ghost use Rattle.abc_run_trace.specs.HasTrace.{HasTrace};
ghost use Rattle.abc_system_bench.specs.Accepted.{IsAcceptedProgram};

use abc_run_trace::trace_of;
use abc_system::{Run, solo};
use abc_term::Program;
use abc_trace::{Head, MOST_LIMIT, MOST_PICK, write_trace};
use abc_value::{List, NoMemory};
use std::alloc::Global;

/// The limit and the pick that two words write, where a trace's first line may have them.
pub fn numbers_of(limit: &str, pick: &str) -> Option<(u32, u64)>
    ensures { IfSome result (λ n. HeadIsWellFormed (Solo n.0 n.1)) }
{
    let limit = limit.parse::<u32>().ok()?;
    let pick = pick.parse::<u64>().ok()?;
    if 1 <= limit && u64::from(limit) <= MOST_LIMIT && pick <= MOST_PICK {
        Some((limit, pick))
    } else {
        None
    }
}

/// The run by the rule of places, which has a trace.
fn run_of(alloc: Global, program: &Program, limit: u32, pick: u64) -> Result<Run, NoMemory>
    requires checked { IsChecked program.now }
    requires accepted { IsAcceptedProgram program.now }
    ensures { IfOk result (λ r. HasTrace program.now (Solo limit pick) r) }
{
    let run = solo(alloc, program, limit, pick)?;
    Ok(run)
}

/// The trace of the run by the rule of places, written.
pub fn traced(alloc: Global, program: &Program, limit: u32, pick: u64) -> Result<List<u8>, NoMemory>
    requires checked { IsChecked program.now }
    requires accepted { IsAcceptedProgram program.now }
    requires head { HeadIsWellFormed (Solo limit pick) }
{
    let run = run_of(alloc, program, limit, pick)?;
    let head = Head::Solo { limit, pick };
    let trace = trace_of(alloc, program, &head, &run, &[])?;
    write_trace(alloc, &trace)
}
