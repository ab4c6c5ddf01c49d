ghost use Rattle.std.specs.Prelude.{◌≡◌};
ghost use Rattle.abc_term.specs.Standing.{process_of, definitions_of};
ghost use Rattle.abc_checks.specs.Facts.{calls_unknown};

use crate::places::Places;
use abc_term::Process;

/// Whether the process calls a name that no definition has.
pub fn calls_unknown(places: &Places<'_>, process: &Process) -> bool
    ensures { result ≡ calls_unknown (definitions_of places.now.program.now.definitions) (process_of process.now) }
{
    match process {
        Process::Nil => false,
        Process::Output(_, _, after) | Process::Input(_, _, after) => {
            calls_unknown(places, &after.then)
        }
        Process::When(_, then) => calls_unknown(places, then),
        Process::Choice(left, right) | Process::Par(left, right) => {
            calls_unknown(places, left) || calls_unknown(places, right)
        }
        Process::Call(name) => !places.defines(*name),
    }
}
