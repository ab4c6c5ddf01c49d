ghost use Rattle.std.specs.Prelude.{◌≡◌, IfOk, IsTrue};

use crate::scope::Scope;
use abc_term::Process;
use abc_value::NoMemory;
use std::alloc::Global;

/// The parallel leaves of a component, as its `|`s join them.
#[cycle(tree)]
#[derive(Drop)]
pub enum Tree<'p> {
    /// A part of the program, in which the variables of the scope have its values.
    Leaf(&'p Process, Scope),
    /// `|`
    Par(Box<Sides<'p>>),
}

/// The two sides of `|`: one of the two moves, and the other stays.
#[cycle(tree)]
#[derive(Drop)]
pub struct Sides<'p> {
    pub left: Tree<'p>,
    pub right: Tree<'p>,
}

impl<'p> Tree<'p> {
    ghost use Rattle.abc_term.specs.Processes.{Nil, Par};
    ghost use Rattle.abc_term.specs.Standing.{process_of};
    ghost use Rattle.abc_term.specs.Substitution.{put};
    ghost use Rattle.abc_moves.specs.Trees.{process_in};

    /// A part of the program, with bindings of its own; `0` and a call have no variables, and need none.
    pub fn leaf(alloc: Global, p: &'p Process, scope: &Scope) -> Result<Tree<'p>, NoMemory>
        ensures { IfOk result (λ t. process_in t ≡ put scope.now (process_of p.now)) }
    {
        match p {
            Process::Nil | Process::Call(_) => Ok(Tree::Leaf(p, Scope::empty(alloc))),
            _ => Ok(Tree::Leaf(p, scope.copy(alloc)?)),
        }
    }

    /// Whether nothing is left to do.
    pub fn is_nil(&self) -> bool
        ensures { IsTrue result → process_in self.now ≡ Nil }
    {
        matches!(self, Tree::Leaf(Process::Nil, _))
    }

    /// Two trees side by side.
    pub fn pair(alloc: Global, l: Tree<'p>, r: Tree<'p>) -> Result<Tree<'p>, NoMemory>
        ensures { IfOk result (λ t. process_in t ≡ Par (process_in l.entry) (process_in r.entry)) }
    {
        let sides = Sides { left: l, right: r };
        Ok(Tree::Par(Box::new(alloc, sides)?))
    }

    /// The same leaves, with bindings of their own.
    pub fn copy(&self, alloc: Global) -> Result<Tree<'p>, NoMemory>
        ensures { IfOk result (λ t. process_in t ≡ process_in self.now) }
    {
        match self {
            Tree::Leaf(p, scope) => Tree::leaf(alloc, p, scope),
            Tree::Par(sides) => {
                let l = sides.left.copy(alloc)?;
                let r = sides.right.copy(alloc)?;
                Tree::pair(alloc, l, r)
            }
        }
    }
}
