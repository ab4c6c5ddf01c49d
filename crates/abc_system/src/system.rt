ghost use Rattle.std.specs.Prelude.{◌<◌, ◌^◌, length};
ghost use Rattle.std.specs.Coded.{codes, Coded-set};
ghost use Rattle.abc_term.specs.contracts.terms.Process as process;
ghost use Rattle.abc_system.specs.Members.{RunUnder};

use crate::member::Member;
use abc_term::Program;
use std::alloc::Global;

/// All components of a program as they are now.
///
/// Contracts see the system of the rules that it stands for. It keeps the allocator.
#[derive(Drop)]
pub struct System<'p> {
    pub(crate) program: &'p Program,
    pub(crate) members: Vec<Member<'p>>,
    pub(crate) alloc: Global,
    ghost under: { RunUnder program.now.definitions members.items } by { Prim.hlevel (Coded-set, codes, process.the_row.coded) },
    ghost few: { length members.items < 2 ^ 32 },
}
