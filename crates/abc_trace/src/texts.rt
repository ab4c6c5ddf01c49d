//! The text of a whole trace.
ghost use Rattle.std.specs.Prelude.{◌≡◌, ◌++◌, ◌+◌, flat_map, IfOk, OnOk};
ghost use Rattle.abc_trace.specs.Lines as text;
ghost use Rattle.abc_trace.specs.Texts.{numbered, line_text, final_text, limit_of, trace_text};

use crate::lines::{write_end, write_env, write_head, write_line, write_node};
use crate::trace::{EnvLine, Head, Line, Trace};
use abc_value::{List, NoMemory, ShortText};
use std::alloc::Global;

/// The text of a trace.
pub fn write_trace(alloc: Global, trace: &Trace) -> Result<List<u8>, NoMemory>
    ensures { IfOk result (λ bytes. bytes ≡ trace_text trace.now) }
{
    let mut out = List::new(alloc);
    write_head(trace.head, &mut out)?;
    write_lines(&trace.names, trace.lines.as_slice(), &mut out)?;
    write_finals(&trace.names, trace.finals.as_slice(), &mut out)?;
    write_nodes(trace.handled.as_slice(), &mut out)?;
    write_end(limit_of(trace.head), trace.lines.len() as u64, &mut out)?;
    Ok(out)
}

fn limit_of(head: Head) -> u64
    ensures { result ≡ limit_of head }
{
    match head {
        Head::Solo { limit, pick: _ } => u64::from(limit),
        Head::Net {
            shape: _,
            limit,
            nodes: _,
            pick: _,
        } => u64::from(limit),
    }
}

fn write_lines(names: &List<ShortText>, lines: &[Line], out: &mut List<u8>) -> Result<(), NoMemory>
    ensures { OnOk result (out.new ≡ out.old ++ numbered (line_text names.now) 1 lines.now) }
{
    let mut number = 1;
    for line in lines {
        write_line(names, number, line, out)?;
        number += 1;
    }
    Ok(())
}

fn write_finals(
    names: &List<ShortText>,
    finals: &[EnvLine],
    out: &mut List<u8>,
) -> Result<(), NoMemory>
    ensures { OnOk result (out.new ≡ out.old ++ flat_map (final_text names.now) finals.now) }
{
    for line in finals {
        write_env(names, line.component, line.entries.as_slice(), out)?;
    }
    Ok(())
}

fn write_nodes(handled: &[u64], out: &mut List<u8>) -> Result<(), NoMemory>
    ensures { OnOk result (out.new ≡ out.old ++ numbered text.node_text 0 handled.now) }
{
    let mut node = 0;
    for packets in handled {
        write_node(node, *packets, out)?;
        node += 1;
    }
    Ok(())
}
