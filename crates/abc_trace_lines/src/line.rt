//! A line of a trace, taken apart.
ghost use Rattle.std.specs.Prelude.{◌≡◌, IfOk};
ghost use Rattle.abc_trace_lines.specs.Reading.{IsReadLine, IsReadAs, IsFirst, IsNumber, IsEnv, IsNode, IsLast};

use crate::counts::{read_last, read_node};
use crate::env::read_env;
use crate::head::read_head;
use crate::parts::LineParts;
use crate::said::read_number;
use abc_value::NoMemory;
use std::alloc::Global;

/// What a line tells, given without its line feed; None where it is no line of a trace, whatever
/// the lines before it.
pub fn read_line<'t>(alloc: Global, line: &'t [u8]) -> Result<Option<LineParts<'t>>, NoMemory>
    ensures { IfOk result (IsReadLine line.now) }
{
    let Some((first, _)) = line.split_first() else {
        return Ok(None);
    };
    match *first {
        b'a' => Ok(first_line(line)),
        b'e' => env_line(alloc, line),
        b'n' => Ok(node_line(line)),
        b'l' | b'q' => Ok(last_line(line)),
        _ => number_line(alloc, line),
    }
}

fn first_line(line: &[u8]) -> Option<LineParts<'_>>
    ensures { IsReadAs IsFirst line.now result }
{
    match read_head(line) {
        Some(head) => Some(LineParts::First(head)),
        None => None,
    }
}

fn number_line<'t>(alloc: Global, line: &'t [u8]) -> Result<Option<LineParts<'t>>, NoMemory>
    ensures { IfOk result (IsReadAs IsNumber line.now) }
{
    let Some((n, sender, said)) = read_number(alloc, line)? else {
        return Ok(None);
    };
    Ok(Some(LineParts::Number(n, sender, said)))
}

fn env_line<'t>(alloc: Global, line: &'t [u8]) -> Result<Option<LineParts<'t>>, NoMemory>
    ensures { IfOk result (IsReadAs IsEnv line.now) }
{
    let Some((component, entries)) = read_env(alloc, line)? else {
        return Ok(None);
    };
    Ok(Some(LineParts::Env(component, entries)))
}

fn node_line(line: &[u8]) -> Option<LineParts<'_>>
    ensures { IsReadAs IsNode line.now result }
{
    match read_node(line) {
        Some((node, handled)) => Some(LineParts::Node(node, handled)),
        None => None,
    }
}

fn last_line(line: &[u8]) -> Option<LineParts<'_>>
    ensures { IsReadAs IsLast line.now result }
{
    match read_last(line) {
        Some((limited, count)) => Some(LineParts::Last(limited, count)),
        None => None,
    }
}
