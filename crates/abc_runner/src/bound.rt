//! The bound on the size of a run, which is its limit times the number of components.
ghost use Rattle.std.specs.Prelude.{◌≡◌, ◌<◌, ◌*◌, ◌↔◌, length, IsTrue};
ghost use Rattle.abc_checks.specs.Facts.{IsChecked};
ghost use Rattle.abc_runner.specs.declared.status.Status.TheVariants as status;
ghost use Rattle.abc_runner.specs.Answers.{IsLineOf};

use crate::answer::Answer;
use crate::limits::MOST_PRODUCT;
use crate::status::{Status, too_much_line};
use abc_term::Program;
use abc_value::NoMemory;
use std::alloc::Global;

/// The number of the program's components.
pub fn components_of(program: &Program) -> u32
    requires checked { IsChecked program.now }
    ensures { result ≡ length program.now.components }
{
    program.components.len() as u32
}

/// The limit is too much for so many components.
pub fn is_too_much(limit: u32, components: u32) -> bool
    ensures { IsTrue result ↔ (MOST_PRODUCT < limit * components) }
{
    u64::from(limit) * u64::from(components) > MOST_PRODUCT
}

/// The answer of a limit that is too much for so many components.
pub fn too_much(alloc: Global, limit: u32, components: u32) -> Answer
    ensures { IsLineOf (status.TooMuch limit components) result }
{
    match too_much_line(alloc, limit, components) {
        Ok(line) => Answer::Line(Status::TooMuch { limit, components }, line),
        Err(NoMemory) => Answer::Refusal(Status::NoMemory),
    }
}
