ghost use Rattle.std.specs.Prelude.{◌≡◌, ◌++◌, map, IfOk, OnOk};
ghost use Rattle.abc_term.specs.Calls.{called};
ghost use Rattle.abc_term.specs.Standing.{process_of, definitions_of};
ghost use Rattle.abc_checks.specs.Parts.{place_of, holds_par};
ghost use Rattle.abc_checks.specs.Graphs.{counts_behind, graph_of};

use crate::places::Places;
use abc_term::Process;
use abc_value::{List, NoMemory};
use std::alloc::Global;

/// Which calls of a process count: all of them, or those with no action before the call.
#[derive(Clone, Copy, Drop)]
pub enum Calls {
    All,
    Unguarded,
}

/// Whether the process holds `|` anywhere.
pub fn holds_par(process: &Process) -> bool
    ensures { result ≡ holds_par (process_of process.now) }
{
    match process {
        Process::Nil | Process::Call(_) => false,
        Process::Output(_, _, after) | Process::Input(_, _, after) => holds_par(&after.then),
        Process::When(_, then) => holds_par(then),
        Process::Choice(left, right) => holds_par(left) || holds_par(right),
        Process::Par(_, _) => true,
    }
}

/// Appends the places of the names that the process calls.
#[tactic(auto, using(crate::proofs::NamesMet::map_append_on))]
fn append_calls(
    counted: Calls,
    places: &Places<'_>,
    process: &Process,
    arrows: &mut List<usize>,
) -> Result<(), NoMemory>
    ensures { OnOk result (arrows.new ≡ arrows.old ++ map (place_of (definitions_of places.now.program.now.definitions)) (called (counts_behind counted) (process_of process.now))) }
{
    match process {
        Process::Nil => Ok(()),
        Process::Output(_, _, after) | Process::Input(_, _, after) => match counted {
            Calls::All => append_calls(counted, places, &after.then, arrows),
            Calls::Unguarded => Ok(()),
        },
        Process::When(_, then) => append_calls(counted, places, then, arrows),
        Process::Choice(left, right) | Process::Par(left, right) => {
            append_calls(counted, places, left, arrows)?;
            append_calls(counted, places, right, arrows)?;
            Ok(())
        }
        Process::Call(name) => arrows.push(places.place(*name)),
    }
}

/// For each definition the places of the names that its body calls.
pub fn graph(
    alloc: Global,
    counted: Calls,
    places: &Places<'_>,
) -> Result<Vec<List<usize>>, NoMemory>
    ensures { IfOk result (λ g. g.items ≡ graph_of (called (counts_behind counted)) places.now.program.now.definitions) }
{
    let mut graph = Vec::new(alloc);
    for definition in places.program.definitions.as_slice() {
        let mut arrows = List::new(alloc);
        append_calls(counted, places, &definition.body, &mut arrows)?;
        graph.push(arrows)?;
    }
    Ok(graph)
}
