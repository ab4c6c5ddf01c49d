ghost use Rattle.abc_term.specs.Standing.{definitions_of};
ghost use Rattle.abc_moves.specs.Bodies.{FindsFirst};
ghost use Rattle.abc_moves.specs.Sounds.{IsSoundUnder};
ghost use Rattle.abc_moves.specs.States.{component_at, CountsOutputs};

use crate::label::Label;
use crate::state::State;
use abc_pred::Interface;
use abc_term::Definition;
use std::alloc::Global;
use std::collections::HashMap;
use std::sync::Arc;

/// What of a component never changes. It stands apart so that it is seen to cross threads by itself.
#[derive(Drop)]
pub struct Fixed {
    /// The place of the first definition of each name, made once for all components.
    pub first: Arc<HashMap<u32, usize>>,
    pub interface: Interface,
    pub alloc: Global,
}

/// A component as it runs: its environment, its interface, and its process as a tree of parallel leaves.
///
/// Each leaf is a part of the program with bindings beside it. Contracts see the component of the rules
/// that it stands for, which is always a sound one: so its moves are few, and their counts fit. The table
/// of definitions is its own where `start` made it; components of one `start_all`, and copies, share it. It
/// keeps the allocator. It may go to another thread.
#[derive(Drop)]
pub struct Live<'p> {
    /// Those of the program.
    pub(crate) definitions: &'p [Definition],
    pub(crate) state: State<'p>,
    pub(crate) fixed: Fixed,
    ghost finds: { FindsFirst fixed.first.value definitions.now },
    ghost counted: { CountsOutputs (definitions_of definitions.now) state fixed.interface },
    pub ghost sound: { ∥ IsSoundUnder definitions.now (component_at state fixed.interface) ∥₁ },
}

fn crosses_threads<T: Send>() {}

fn is_shared_by_threads<T: Send + Sync>() {}

/// Whole components are handed to the threads of a run, and labels are read by several at once.
fn lives_cross_threads<'p>() {
    crosses_threads::<Live<'p>>();
    is_shared_by_threads::<Label>();
}
