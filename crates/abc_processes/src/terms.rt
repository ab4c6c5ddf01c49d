//! Processes made of what was read, each in a box.
ghost use Rattle.std.specs.Prelude.{◌≡◌, IfOk};
ghost use Rattle.abc_term.specs.Processes as term;
ghost use Rattle.abc_term.specs.Standing.{process_of};

use abc_term::Process;
use abc_value::NoMemory;
use std::alloc::Global;

pub fn boxed(alloc: Global, process: Process) -> Result<Box<Process>, NoMemory>
    ensures { IfOk result (λ b. b.value ≡ process) }
{
    Ok(Box::new(alloc, process)?)
}

/// `a + b`
pub fn choice_of(alloc: Global, a: Box<Process>, b: Box<Process>) -> Result<Box<Process>, NoMemory>
    ensures { IfOk result (λ r. process_of r.value ≡ term.Choice (process_of a.value) (process_of b.value)) }
{
    Ok(boxed(alloc, Process::Choice(a, b))?)
}

/// `a | b`
pub fn par_of(alloc: Global, a: Box<Process>, b: Box<Process>) -> Result<Box<Process>, NoMemory>
    ensures { IfOk result (λ r. process_of r.value ≡ term.Par (process_of a.value) (process_of b.value)) }
{
    Ok(boxed(alloc, Process::Par(a, b))?)
}
