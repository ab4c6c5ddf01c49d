//! What the next line makes of a trace.
ghost use Rattle.std.specs.Prelude.{◌≡◌, ◌↔◌, ◌+◌, ◌<◌, ◌^◌, ◌++◌, length, map, IfOk, IsTrue};
ghost use Rattle.abc_text.specs.Meanings.{AreDifferent};
ghost use Rattle.abc_trace.specs.WellFormed.{IsName};
ghost use Rattle.abc_trace_lines.specs.Plain as plain;
ghost use Rattle.abc_trace_lines.specs.Plain.{line_text, tail_text};
ghost use Rattle.abc_trace_lines.specs.Spelled.{IsSpelled, SaidIsSpelled, TailIsSpelled};
ghost use Rattle.abc_trace_lines.specs.Reading.{plain_said, plain_tail, plain_line};
ghost use Rattle.abc_trace_order.specs.Lines.{front_text};
ghost use Rattle.abc_trace_order.specs.Reading.{IsReading, IsStep, IsReadSaid, IsReadLine, IsNumberedEnv, MayBeNumber, MayBeNode, MayBeLast, plain_entries, trace_of};

use crate::heads::{is_net, limit_of, nodes_of};
use crate::words::{number_entries, number_heard};
use abc_checks::MOST_COMPONENTS;
use abc_lexer::Names;
use abc_pred::Name;
use abc_trace::{EnvLine, Line, Said};
use abc_trace_lines::{LineParts, SaidParts, lines_are_one, read_line};
use abc_trace_order::{Reading, Step};
use abc_trace_preds::{preds_stay, read_sent};
use abc_value::{List, NoMemory, Value};
use std::alloc::Global;

/// What the next line makes of the trace.
pub fn take_line<'t>(
    alloc: Global,
    reading: &mut Reading<'t>,
    line: &'t [u8],
) -> Result<Step, NoMemory>
    requires read { IsReading reading.old }
    requires short { length (front_text (trace_of reading.old)) + length line.now < 2 ^ 32 }
    ensures { IfOk result (λ s. IsStep reading.old line.now s reading.new) }
{
    lines_are_one();
    match read_line(alloc, line)? {
        None => Ok(Step::Bad),
        Some(LineParts::First(_)) => Ok(Step::Bad),
        Some(LineParts::Number(number, sender, said)) => {
            take_number(alloc, reading, number, sender, said)
        }
        Some(LineParts::Env(component, entries)) => { take_env(alloc, reading, component, entries) }
        Some(LineParts::Node(node, handled)) => take_node(reading, node, handled),
        Some(LineParts::Last(limited, count)) => Ok(last_step(reading, limited, count)),
    }
}

/// The line of a number.
fn take_number<'t>(
    alloc: Global,
    reading: &mut Reading<'t>,
    number: u64,
    sender: &'t [u8],
    said: Option<SaidParts<'t>>,
) -> Result<Step, NoMemory>
    requires read { IsReading reading.old }
    requires spelled { IsSpelled (plain.Number number sender.now (plain_tail said)) }
    requires short { length (front_text (trace_of reading.old))
        + length (line_text (plain.Number number sender.now (plain_tail said))) < 2 ^ 32 }
    ensures { IfOk result (λ s. IsStep reading.old
        (line_text (plain.Number number sender.now (plain_tail said.entry))) s reading.new) }
{
    lines_are_one();
    preds_stay();
    if !may_be_number(reading, number, said.is_some()) {
        return Ok(Step::Bad);
    }
    match read_number(alloc, sender, said, &mut reading.names)? {
        None => Ok(Step::Bad),
        Some(line) => {
            reading.lines.push(line)?;
            Ok(Step::More)
        }
    }
}

/// Whether the line of this number may come next, with something said under it or nothing.
fn may_be_number(reading: &Reading<'_>, number: u64, is_said: bool) -> bool
    requires { length reading.now.lines < 2 ^ 32 }
    ensures { IsTrue result ↔ MayBeNumber reading.now number is_said }
{
    reading.finals.is_empty()
        && number == reading.lines.len() as u64 + 1
        && number <= limit_of(reading.head)
        && (is_said || is_net(reading.head))
}

/// The line of a number, with its words numbered; None where what it says of a predicate is none.
fn read_number<'t>(
    alloc: Global,
    sender: &'t [u8],
    said: Option<SaidParts<'t>>,
    names: &mut Names<'t>,
) -> Result<Option<Line>, NoMemory>
    requires different { AreDifferent names.old }
    requires sender { IsName sender.now }
    requires said { TailIsSpelled (plain_tail said) }
    requires few { length names.old + length (sender.now ++ tail_text (plain_tail said)) < 2 ^ 32 }
    ensures { IfOk result (λ l. IsReadLine names.old sender.now (plain_tail said.entry) names.new l) }
{
    let sender = Name(names.number(sender)?);
    match said {
        None => Ok(Some(Line { sender, said: None })),
        Some(parts) => match read_said(alloc, parts, names)? {
            None => Ok(None),
            Some(said) => Ok(Some(Line {
                sender,
                said: Some(said),
            })),
        },
    }
}

/// What is said, with its words numbered; None where its predicate is none.
fn read_said<'t>(
    alloc: Global,
    said: SaidParts<'t>,
    names: &mut Names<'t>,
) -> Result<Option<Said>, NoMemory>
    requires different { AreDifferent names.old }
    requires said { SaidIsSpelled (plain_said said) }
    requires few { length names.old + length (tail_text (Some (plain_said said))) < 2 ^ 32 }
    ensures { IfOk result (λ s. IsReadSaid names.old (plain_said said.entry) names.new s) }
{
    preds_stay();
    let SaidParts {
        place,
        values,
        pred,
        heard,
    } = said;
    match read_sent(alloc, pred, names)? {
        None => Ok(None),
        Some(pred) => {
            let heard = number_heard(alloc, heard.as_slice(), names)?;
            Ok(Some(Said {
                place,
                values,
                pred,
                heard,
            }))
        }
    }
}

/// The line of an environment.
fn take_env<'t>(
    alloc: Global,
    reading: &mut Reading<'t>,
    component: &'t [u8],
    entries: List<(&'t [u8], Value)>,
) -> Result<Step, NoMemory>
    requires read { IsReading reading.old }
    requires spelled { IsSpelled (plain.Env component.now (plain_entries entries)) }
    requires short { length (front_text (trace_of reading.old))
        + length (line_text (plain.Env component.now (plain_entries entries))) < 2 ^ 32 }
    ensures { IfOk result (λ s. IsStep reading.old
        (line_text (plain.Env component.now (plain_entries entries.entry))) s reading.new) }
{
    lines_are_one();
    preds_stay();
    let count = reading.finals.len();
    if !reading.handled.is_empty() || count >= MOST_COMPONENTS {
        return Ok(Step::Bad);
    }
    let number = reading.components.number(component)?;
    if (number as usize) < count {
        return Ok(Step::Bad);
    }
    let last = read_env(alloc, component, entries, &mut reading.names)?;
    reading.finals.push(last)?;
    Ok(Step::More)
}

/// The line of an environment, with its words numbered.
fn read_env<'t>(
    alloc: Global,
    component: &'t [u8],
    entries: List<(&'t [u8], Value)>,
    names: &mut Names<'t>,
) -> Result<EnvLine, NoMemory>
    requires different { AreDifferent names.old }
    requires spelled { IsSpelled (plain.Env component.now (plain_entries entries)) }
    requires few { length names.old + 1 + length entries < 2 ^ 32 }
    ensures { IfOk result (λ f.
        IsNumberedEnv names.old component.now (plain_entries entries.entry) names.new f) }
{
    let component = Name(names.number(component)?);
    let entries = number_entries(alloc, entries, names)?;
    Ok(EnvLine { component, entries })
}

/// The line of a node.
fn take_node(reading: &mut Reading<'_>, node: u64, handled: u64) -> Result<Step, NoMemory>
    requires read { IsReading reading.old }
    requires spelled { IsSpelled (plain.Node node handled) }
    ensures { IfOk result (λ s. IsStep reading.old (line_text (plain.Node node handled)) s reading.new) }
{
    lines_are_one();
    if !may_be_node(reading, node) {
        return Ok(Step::Bad);
    }
    reading.handled.push(handled)?;
    Ok(Step::More)
}

/// Whether the line of this node may come next.
fn may_be_node(reading: &Reading<'_>, node: u64) -> bool
    ensures { IsTrue result ↔ MayBeNode reading.now node }
{
    !reading.finals.is_empty()
        && node == reading.handled.len() as u64
        && node < nodes_of(reading.head)
}

/// What a last line is.
fn last_step(reading: &Reading<'_>, limited: bool, count: u64) -> Step
    requires read { IsReading reading.now }
    requires spelled { IsSpelled (plain.Last limited count) }
    ensures { IsStep reading.now (line_text (plain.Last limited count)) result reading.now }
{
    lines_are_one();
    if may_be_last(reading, limited, count) {
        Step::Last
    } else {
        Step::Bad
    }
}

/// Whether this last line may come next.
fn may_be_last(reading: &Reading<'_>, limited: bool, count: u64) -> bool
    ensures { IsTrue result ↔ MayBeLast reading.now limited count }
{
    !reading.finals.is_empty()
        && reading.handled.len() as u64 == nodes_of(reading.head)
        && count == reading.lines.len() as u64
        && limited == (count == limit_of(reading.head))
}
