//! A trace, read back from its text.
ghost use Rattle.std.specs.Prelude.{◌≡◌, ◌++◌, ◌∷◌, ◌≤◌, ◌<◌, ◌^◌, length, IfOk, IfErr};
ghost use Rattle.abc_trace.specs.Lines.{ended};
ghost use Rattle.abc_trace.specs.WellFormed.{HeadIsWellFormed};
ghost use Rattle.abc_trace_lines.specs.Plain as plain;
ghost use Rattle.abc_trace_lines.specs.Plain.{line_text};
ghost use Rattle.abc_trace_order.specs.Lines.{front_text};
ghost use Rattle.abc_trace_order.specs.Reading.{IsReading, IsReadTo, IsReadAll, IsFirst, HasNoLine, trace_of};
ghost use Rattle.abc_trace_order.specs.Texts.{IsOneLine, IsReadAs, IsTraceRefusal, AnswersTrace};

use crate::places::{first_line, place_of};
use crate::steps::take_line;
use crate::words::texts;
use abc_lexer::Names;
use abc_trace::{Head, Trace};
use abc_trace_lines::{LineParts, lines_are_one, read_line};
use abc_trace_order::{Reading, Step, TraceRefusal};
use abc_trace_preds::preds_stay;
use abc_value::{List, NoMemory};
use std::alloc::Global;

/// The trace whose text these bytes are, its names numbered as their words are first met.
///
/// `BadLine` has the place of the first line with which no text of a trace goes on; a line is its bytes
/// together with their line feed, so bytes behind the last line feed are a bad line. `Missing` has the
/// text's length, where the text ends with a line and a trace goes on behind it.
pub fn read_trace(alloc: Global, bytes: &[u8]) -> Result<Trace, TraceRefusal>
    requires { length bytes.now < 2 ^ 32 }
    ensures read { IfOk result (IsReadAs bytes.now) }
    ensures refused { IfErr result (IsTraceRefusal bytes.now) }
    ensures exact { AnswersTrace bytes.now result }
{
    let (mut reading, behind) = match read_first(alloc, bytes) {
        Ok(first) => first,
        Err(refusal) => return Err(refusal),
    };
    let rest = match read_lines(alloc, bytes, behind, &mut reading) {
        Ok(rest) => rest,
        Err(refusal) => return Err(refusal),
    };
    if !rest.is_empty() {
        lines_are_one();
        return Err(TraceRefusal::BadLine {
            place: place_of(bytes, rest),
        });
    }
    match finish(alloc, reading) {
        Ok(trace) => Ok(trace),
        Err(NoMemory) => Err(TraceRefusal::NoMemory),
    }
}

/// The first line, which says of what the trace is, and what stands behind it.
fn read_first<'t>(alloc: Global, bytes: &'t [u8]) -> Result<(Reading<'t>, &'t [u8]), TraceRefusal>
    requires { length bytes.now < 2 ^ 32 }
    ensures read { IfOk result (λ r. IsReadTo bytes.now r.1.now r.0) }
    ensures refused { IfErr result (IsTraceRefusal bytes.now) }
{
    lines_are_one();
    preds_stay();
    let (line, behind) = match next_line(bytes, bytes) {
        Ok(split) => split,
        Err(refusal) => return Err(refusal),
    };
    match read_head(alloc, line) {
        Ok(Some(head)) => Ok((begin(alloc, head), behind)),
        Ok(None) => Err(TraceRefusal::BadLine { place: 0 }),
        Err(NoMemory) => Err(TraceRefusal::NoMemory),
    }
}

/// What a first line says; None where it is none.
fn read_head(alloc: Global, line: &[u8]) -> Result<Option<Head>, NoMemory>
    ensures { IfOk result (λ head. IsFirst line.now head) }
{
    lines_are_one();
    match read_line(alloc, line)? {
        None => Ok(None),
        Some(LineParts::First(head)) => Ok(Some(head)),
        Some(LineParts::Number(_, _, _)) => Ok(None),
        Some(LineParts::Env(_, _)) => Ok(None),
        Some(LineParts::Node(_, _)) => Ok(None),
        Some(LineParts::Last(_, _)) => Ok(None),
    }
}

/// A trace of which the first line stands.
fn begin<'t>(alloc: Global, head: Head) -> Reading<'t>
    requires { HeadIsWellFormed head }
    ensures reading { IsReading result }
    ensures text { front_text (trace_of result) ≡ ended (line_text (plain.First head)) }
{
    Reading {
        head,
        lines: List::new(alloc),
        finals: List::new(alloc),
        handled: List::new(alloc),
        names: Names::new(alloc),
        components: Names::new(alloc),
    }
}

/// The lines up to the last one of a trace, and what stands behind it.
fn read_lines<'t>(
    alloc: Global,
    bytes: &'t [u8],
    behind: &'t [u8],
    reading: &mut Reading<'t>,
) -> Result<&'t [u8], TraceRefusal>
    requires read { IsReadTo bytes.now behind.now reading.old }
    requires short { length bytes.now < 2 ^ 32 }
    ensures read { IfOk result (λ rest. IsReadAll bytes.now rest.now reading.new) }
    ensures refused { IfErr result (IsTraceRefusal bytes.now) }
{
    lines_are_one();
    preds_stay();
    let mut rest = behind;
    'lines: loop {
        let (line, more) = match next_line(bytes, rest) {
            Ok(split) => split,
            Err(refusal) => return Err(refusal),
        };
        match take_line(alloc, reading, line) {
            Ok(Step::Bad) => {
                return Err(TraceRefusal::BadLine {
                    place: place_of(bytes, rest),
                });
            }
            Ok(Step::More) => rest = more,
            Ok(Step::Last) => return Ok(more),
            Err(NoMemory) => return Err(TraceRefusal::NoMemory),
        }
    }
}

/// The line at the front of the rest of a text, and what stands behind it.
fn next_line<'t>(bytes: &[u8], rest: &'t [u8]) -> Result<(&'t [u8], &'t [u8]), TraceRefusal>
    requires back { length rest.now ≤ length bytes.now }
    requires short { length bytes.now < 2 ^ 32 }
    ensures ok { IfOk result (λ s. (rest.now ≡ s.0.now ++ 10 ∷ s.1.now) × IsOneLine s.0.now) }
    ensures err { IfErr result (HasNoLine bytes.now rest.now) }
{
    match first_line(rest) {
        Some(split) => Ok(split),
        None => {
            let place = place_of(bytes, rest);
            if rest.is_empty() {
                Err(TraceRefusal::Missing { place })
            } else {
                Err(TraceRefusal::BadLine { place })
            }
        }
    }
}

/// The trace that was read.
fn finish(alloc: Global, reading: Reading<'_>) -> Result<Trace, NoMemory>
    requires { IsReading reading }
    ensures { IfOk result (λ t. t ≡ trace_of reading.entry) }
{
    let Reading {
        head,
        lines,
        finals,
        handled,
        names,
        components: _,
    } = reading;
    Ok(Trace {
        names: texts(alloc, names.words())?,
        head,
        lines,
        finals,
        handled,
    })
}
