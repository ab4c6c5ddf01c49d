//! Programs, from texts.
ghost use Rattle.std.specs.Prelude.{IfOk};
ghost use Rattle.abc_checks.specs.Facts.{IsChecked};

use abc_parse::{Parsed, TextRefusal, parse};
use abc_term::Program;
use std::alloc::Global;
use std::process::Abort;
use std::test::Fail;

/// The program of a text. It is read a second time where memory was refused.
pub fn program_of(rt: &impl Abort, alloc: Global, text: &[u8]) -> Result<Program, Fail>
    ensures { IfOk result IsChecked }
{
    assert!(rt; text.len() < 100000);
    let answer = match parse(alloc, text) {
        Err(TextRefusal::NoMemory) => parse(alloc, text),
        answer => answer,
    };
    let Parsed { program, .. } = answer?;
    Ok(program)
}
