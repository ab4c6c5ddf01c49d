ghost use Rattle.std.specs.Prelude.{◌≡◌};
ghost use Rattle.abc_term.specs.Standing.{process_of};
ghost use Rattle.abc_checks.specs.Parts.{repeats_variable};

use crate::names::repeats;
use abc_term::Process;

/// Whether an input of the process lists a variable twice.
pub fn repeats_variable(process: &Process) -> bool
    ensures { result ≡ repeats_variable (process_of process.now) }
{
    match process {
        Process::Nil | Process::Call(_) => false,
        Process::Output(_, _, after) => repeats_variable(&after.then),
        Process::Input(_, variables, after) => {
            repeats(variables.as_slice()) || repeats_variable(&after.then)
        }
        Process::When(_, then) => repeats_variable(then),
        Process::Choice(left, right) | Process::Par(left, right) => {
            repeats_variable(left) || repeats_variable(right)
        }
    }
}
