ghost use Rattle.std.specs.Prelude.{◌≡◌, IfOk, length};
ghost use Rattle.std.specs.Arc.{arc_value};
ghost use Rattle.abc_term.specs.Processes.{body_of};
ghost use Rattle.abc_term.specs.Standing.{definitions_of};
ghost use Rattle.abc_moves.specs.Bodies.{FindsFirst, body_in, IsUnfolded};

use abc_pred::Name;
use abc_term::{Definition, Process};
use abc_value::NoMemory;
use std::alloc::Global;
use std::collections::HashMap;
use std::sync::Arc;

/// The bodies of a program's definitions, found by their names.
#[derive(Clone, Copy)]
pub struct Bodies<'a, 'p> {
    pub definitions: &'p [Definition],
    /// The place of the first definition of each name that has one, by the name's number.
    pub first: &'a HashMap<u32, usize>,
    ghost finds: { FindsFirst first.now definitions.now },
}

/// The bodies of these definitions, by the table of their places.
pub fn bodies_of<'a, 'p>(
    definitions: &'p [Definition],
    first: &'a Arc<HashMap<u32, usize>>,
) -> Bodies<'a, 'p>
    requires { FindsFirst (arc_value first.now) definitions.now }
    ensures { result.definitions.now ≡ definitions.now }
{
    let first = &**first;
    Bodies { definitions, first }
}

/// The places of the first definitions.
pub fn places(alloc: Global, definitions: &[Definition]) -> Result<HashMap<u32, usize>, NoMemory>
    ensures { IfOk result (λ m. FindsFirst m definitions.now) }
{
    let mut first = HashMap::with_capacity(alloc, definitions.len())?;
    let mut at = definitions.len();
    while at > 0 {
        at -= 1;
        first.insert(definitions[at].name.0, at)?;
    }
    Ok(first)
}

impl<'p> Bodies<'_, 'p> {
    /// To which depth calls are unfolded: the number of definitions.
    pub fn depth(&self) -> usize
        ensures { result ≡ length (definitions_of self.now.definitions.now) }
    {
        self.definitions.len()
    }

    /// The body of the first definition of this name.
    fn body(&self, name: Name) -> Option<&'p Process>
        ensures { body_in result ≡ body_of (definitions_of self.now.definitions.now) name }
    {
        match self.first.get(&name.0) {
            Some(at) => Some(&self.definitions[*at].body),
            None => None,
        }
    }

    /// What a call is unfolded to, where some depth is left.
    pub fn callee(&self, depth: usize, name: Name) -> Option<&'p Process>
        ensures { IsUnfolded depth (definitions_of self.now.definitions.now) name result }
    {
        if depth == 0 {
            return None;
        }
        self.body(name)
    }
}
