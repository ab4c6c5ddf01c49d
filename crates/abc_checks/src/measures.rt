ghost use Rattle.std.specs.Prelude.{◌≡◌, ◌≤◌, ◌<◌, ℕ, true, false, length, slice_index_or, IfOk, vec_len, min, ◌+◌};
ghost use Rattle.abc_term.specs.Processes.{Nil};
ghost use Rattle.abc_term.specs.Standing.{process_of, definitions_of};
ghost use Rattle.abc_checks.specs.Measures.{width_of, breadth_of, has_broad_part, IsLeastSolution};
ghost use Rattle.abc_checks.specs.Tables.{measure_of, cap_of, number_of, bodies, room, IsRising, IsSettledAt};

use crate::calls::{Calls, graph};
use crate::limits::{BROADEST, WIDEST};
use crate::order::Order;
use crate::places::Places;
use abc_pred::Name;
use abc_term::Process;
use abc_value::NoMemory;
use std::alloc::Global;

/// What is counted of a process: the parts that it can have side by side, or the parts that a walk over
/// its unguarded part meets.
#[derive(Clone, Copy, Drop)]
pub enum Measure {
    Width,
    Breadth,
}

/// The table's number for the name: 1 where no definition has it.
fn number(places: &Places<'_>, table: &[usize], name: Name) -> usize
    ensures { result ≡ number_of places.now.program.now.definitions table.now name }
{
    match table.get(places.place(name)) {
        Some(number) => *number,
        None => 1,
    }
}

/// The width of a process, where the table has that of each definition's body.
pub fn width(places: &Places<'_>, table: &[usize], process: &Process) -> usize
    ensures { result ≡ width_of (number_of places.now.program.now.definitions table.now) (process_of process.now) }
{
    match process {
        Process::Nil => 1,
        Process::Output(_, _, after) | Process::Input(_, _, after) => {
            width(places, table, &after.then)
        }
        Process::When(_, then) => width(places, table, then),
        Process::Choice(left, right) => {
            let left = width(places, table, left);
            let right = width(places, table, right);
            left.max(right)
        }
        Process::Par(left, right) => {
            let left = width(places, table, left);
            let right = width(places, table, right);
            left.saturating_add(right).min(WIDEST + 1)
        }
        Process::Call(name) => number(places, table, *name).min(WIDEST + 1),
    }
}

/// One more than the two breadths together, none above 2,049.
fn one_more(left: usize, right: usize) -> usize
    ensures { result ≡ min (left + right + 1) (BROADEST + 1) }
{
    left.saturating_add(right)
        .saturating_add(1)
        .min(BROADEST + 1)
}

/// The breadth of a process, where the table has that of each definition's body.
pub fn breadth(places: &Places<'_>, table: &[usize], process: &Process) -> usize
    ensures { result ≡ breadth_of (number_of places.now.program.now.definitions table.now) (process_of process.now) }
{
    match process {
        Process::Nil | Process::Output(_, _, _) | Process::Input(_, _, _) => 1,
        Process::When(_, then) => {
            let then = breadth(places, table, then);
            one_more(then, 0)
        }
        Process::Choice(left, right) | Process::Par(left, right) => {
            let left = breadth(places, table, left);
            let right = breadth(places, table, right);
            one_more(left, right)
        }
        Process::Call(name) => one_more(number(places, table, *name), 0),
    }
}

/// The breadth of a process, and whether it or a part of it has a breadth above 2,048.
pub fn parts_of(places: &Places<'_>, table: &[usize], process: &Process) -> (usize, bool)
    ensures breadth { result.0 ≡ breadth_of (number_of places.now.program.now.definitions table.now) (process_of process.now) }
    ensures broad { result.1 ≡ has_broad_part (number_of places.now.program.now.definitions table.now) (process_of process.now) }
{
    match process {
        Process::Nil => (1, false),
        Process::Output(_, _, after) | Process::Input(_, _, after) => {
            let (_, broad) = parts_of(places, table, &after.then);
            (1, broad)
        }
        Process::When(_, then) => {
            let (then, broad) = parts_of(places, table, then);
            let whole = one_more(then, 0);
            (whole, BROADEST < whole || broad)
        }
        Process::Choice(left, right) | Process::Par(left, right) => {
            let (left, left_broad) = parts_of(places, table, left);
            let (right, right_broad) = parts_of(places, table, right);
            let whole = one_more(left, right);
            (whole, BROADEST < whole || (left_broad || right_broad))
        }
        Process::Call(name) => {
            let whole = one_more(number(places, table, *name), 0);
            (whole, BROADEST < whole)
        }
    }
}

fn measured(measure: Measure, places: &Places<'_>, table: &[usize], process: &Process) -> usize
    ensures { result ≡ measure_of measure (number_of places.now.program.now.definitions table.now) (process_of process.now) }
{
    match measure {
        Measure::Width => width(places, table, process),
        Measure::Breadth => breadth(places, table, process),
    }
}

/// What the equation of one definition asks for; 1 where there is no definition of that number.
fn asked_for(measure: Measure, places: &Places<'_>, table: &[usize], at: usize) -> usize
    ensures { result ≡ measure_of measure (number_of places.now.program.now.definitions table.now) (slice_index_or (bodies places.now.program.now.definitions) at Nil) }
{
    match places.program.definitions.get(at) {
        Some(definition) => measured(measure, places, table, &definition.body),
        None => 1,
    }
}

/// Raises the number of one definition to what its equation asks for, and says whether that changed it.
fn raise(measure: Measure, places: &Places<'_>, table: &mut Vec<usize>, at: usize) -> bool
    requires rising { IsRising (measure_of measure) places.now.program.now.definitions table.old.items }
    requires within { at < length places.now.program.now.definitions }
    ensures rising { IsRising (measure_of measure) places.now.program.now.definitions table.new.items }
    ensures settled { result ≡ false → IsSettledAt (measure_of measure) places.now.program.now.definitions table.new.items at }
    ensures same { result ≡ false → table.new.items ≡ table.old.items }
    ensures falls { result ≡ true → room (cap_of measure) table.new.items < room (cap_of measure) table.old.items }
{
    let asked = asked_for(measure, places, table, at);
    if table[at] < asked {
        table[at] = asked;
        true
    } else {
        false
    }
}

/// Raises the number of each definition once, and says whether that changed one.
fn raise_all(measure: Measure, places: &Places<'_>, table: &mut Vec<usize>) -> bool
    requires rising { IsRising (measure_of measure) places.now.program.now.definitions table.old.items }
    ensures rising { IsRising (measure_of measure) places.now.program.now.definitions table.new.items }
    ensures settled { result ≡ false → (i : ℕ) → i < length places.now.program.now.definitions → IsSettledAt (measure_of measure) places.now.program.now.definitions table.new.items i }
    ensures falls { result ≡ true → room (cap_of measure) table.new.items < room (cap_of measure) table.old.items }
{
    let mut changed = false;
    for i in 0..places.program.definitions.len() {
        if raise(measure, places, table, i) {
            changed = true;
        }
    }
    changed
}

/// Raises numbers of definitions, as their turns come.
fn raise_in_turn(measure: Measure, places: &Places<'_>, turns: &[usize], table: &mut Vec<usize>)
    requires { IsRising (measure_of measure) places.now.program.now.definitions table.old.items }
    ensures { IsRising (measure_of measure) places.now.program.now.definitions table.new.items }
{
    for at in turns {
        if *at < places.program.definitions.len() {
            raise(measure, places, table, *at);
        }
    }
}

/// The order in which the definitions are measured: callees before callers.
fn turns(alloc: Global, measure: Measure, places: &Places<'_>) -> Result<Vec<usize>, NoMemory> {
    let counted = match measure {
        Measure::Width => Calls::All,
        Measure::Breadth => Calls::Unguarded,
    };
    let graph = graph(alloc, counted, places)?;
    Ok(Order::of(alloc, &graph)?.turns)
}

/// The least numbers that solve the equations, one for each definition. The turns settle them where no
/// definition is on a cycle of unguarded calls or holds `|` and is on one of calls; then the loop only looks.
pub fn table(alloc: Global, measure: Measure, places: &Places<'_>) -> Result<Vec<usize>, NoMemory>
    ensures { IfOk result (λ t. IsLeastSolution (measure_of measure) (definitions_of places.now.program.now.definitions) (number_of places.now.program.now.definitions t.items)) }
{
    let mut table = vec![in alloc; 1; places.program.definitions.len()]?;
    let turns = turns(alloc, measure, places)?;
    raise_in_turn(measure, places, &turns, &mut table);
    while raise_all(measure, places, &mut table) {}
    Ok(table)
}
