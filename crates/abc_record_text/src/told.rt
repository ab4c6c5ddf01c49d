//! The trace of a record.
ghost use Rattle.std.specs.Prelude.{◌≡◌, ◌++◌, ◌+◌, length, IfOk, OnOk};
ghost use Rattle.abc_checks.specs.Facts.{IsChecked};
ghost use Rattle.abc_trace.specs.Lines.{node_text};
ghost use Rattle.abc_trace.specs.Texts.{numbered};
ghost use Rattle.abc_record_text.specs.LegalRecords.{IsLegalFor};
ghost use Rattle.abc_record_text.specs.RecordTexts.{IsRecordText, handled_in};

use crate::steps::{write_envs, write_steps};
use abc_merge::{choices, handled};
use abc_moves::Label;
use abc_net::Record;
use abc_system::System;
use abc_term::Program;
use abc_trace::{Head, write_end, write_head, write_node};
use abc_value::{List, NoMemory};
use std::alloc::Global;

/// Appends the lines of the nodes, each with how many packets it handled.
fn write_nodes(ran: &Record<Label>, out: &mut List<u8>) -> Result<(), NoMemory>
    requires { length ran.now.logs ≡ ran.now.agents + ran.now.nodes }
    ensures { OnOk result (out.new ≡ out.old ++ numbered node_text 0 (handled_in ran.now)) }
{
    for node in 0..ran.nodes {
        write_node(u64::from(node), handled(ran, node), out)?;
    }
    Ok(())
}

/// The trace of a record that is legal for the program: the first line of its network, a line for
/// each of its numbers, for each component and for each node, and the last line.
///
/// The run is the one of the choices that the record tells. It is made on one system, and each
/// step's line is written as the step is made.
pub fn record_text(
    alloc: Global,
    program: &Program,
    ran: &Record<Label>,
) -> Result<List<u8>, NoMemory>
    requires checked { IsChecked program.now }
    requires legal { IsLegalFor program.now ran.now }
    ensures { IfOk result (λ text. IsRecordText program.now ran.now text) }
{
    let told = choices(alloc, ran)?;
    let mut out = List::new(alloc);
    let head = Head::Net {
        shape: ran.shape,
        limit: ran.limit,
        nodes: ran.nodes,
        pick: ran.pick,
    };
    write_head(head, &mut out)?;
    let mut system = System::start(alloc, program)?;
    write_steps(alloc, program, told.as_slice(), &mut system, &mut out)?;
    let envs = system.envs()?;
    let components = program.components.as_slice();
    write_envs(&program.names, components, envs.as_slice(), &mut out)?;
    write_nodes(ran, &mut out)?;
    write_end(u64::from(ran.limit), told.len() as u64, &mut out)?;
    Ok(out)
}
