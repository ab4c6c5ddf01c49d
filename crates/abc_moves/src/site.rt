ghost use Rattle.std.specs.Prelude.{◌≡◌, ◌++◌, ◌∷◌, [], IfOk};
ghost use Rattle.abc_moves.specs.Sites.{join, joined};
ghost use Rattle.abc_moves.specs.Trees.{process_in};

use crate::scope::Scope;
use crate::tree::Tree;
use abc_pred::{Expr, Name, Pred};
use abc_term::{After, Process};
use abc_value::{List, NoMemory};
use std::alloc::Global;

/// `(es) @ (pred) . after`
#[derive(Clone, Copy)]
pub struct OutputAction<'p> {
    pub es: &'p List<Expr>,
    pub pred: &'p Pred,
    pub after: &'p After,
}

/// `? (..) (xs) . after`
#[derive(Clone, Copy)]
pub struct InputAction<'p> {
    pub xs: &'p List<Name>,
    pub after: &'p After,
}

/// A process that stays beside what moves, with the values that its variables have.
#[derive(Clone, Copy)]
pub enum Beside<'a, 'p> {
    /// It stands on the left.
    Left(&'p Process, &'a Scope),
    /// It stands on the right.
    Right(&'p Process, &'a Scope),
}

/// An action that a walk has found among the unguarded parts of a process.
#[derive(Drop)]
pub struct Site<'a, 'p, A> {
    pub action: A,
    /// The values that its variables have.
    pub scope: &'a Scope,
    /// What stays beside it, the innermost first.
    pub beside: List<Beside<'a, 'p>>,
}

// What was found is handed back through a walk in a box, so that deep walks take little of the stack.
impl<'a, 'p, A: Drop> Site<'a, 'p, A> {
    /// An action beside which nothing stays.
    pub fn alone(
        alloc: Global,
        action: A,
        scope: &'a Scope,
    ) -> Result<Box<Site<'a, 'p, A>>, NoMemory>
        ensures { IfOk result (λ s. s.value ≡ record { action = action; scope = scope.entry; beside = [] }) }
    {
        let site = Site {
            action,
            scope,
            beside: List::new(alloc),
        };
        Ok(Box::new(alloc, site)?)
    }

    /// The same action with one more process beside it, outside the others.
    pub fn with_beside(
        site: Box<Site<'a, 'p, A>>,
        stays: Beside<'a, 'p>,
    ) -> Result<Box<Site<'a, 'p, A>>, NoMemory>
        ensures { IfOk result (λ s.
            s.value ≡ record site.entry.value { beside = site.entry.value.beside ++ stays.entry ∷ [] }) }
    {
        let mut site = site;
        site.beside.push(stays)?;
        Ok(site)
    }
}

impl<'p> Beside<'_, 'p> {
    /// What moved and what stays, side by side.
    fn join(&self, alloc: Global, moved: Tree<'p>) -> Result<Tree<'p>, NoMemory>
        ensures { IfOk result (λ t. process_in t ≡ join self.now (process_in moved.entry)) }
    {
        match self {
            Beside::Left(stays, scope) => {
                Tree::pair(alloc, Tree::leaf(alloc, stays, scope)?, moved)
            }
            Beside::Right(stays, scope) => {
                Tree::pair(alloc, moved, Tree::leaf(alloc, stays, scope)?)
            }
        }
    }
}

/// What moved, among all that stays beside it.
pub fn joined<'p>(
    alloc: Global,
    moved: Tree<'p>,
    beside: &[Beside<'_, 'p>],
) -> Result<Tree<'p>, NoMemory>
    ensures { IfOk result (λ t. process_in t ≡ joined beside.now (process_in moved.entry)) }
{
    let mut tree = moved;
    for stays in beside {
        tree = stays.join(alloc, tree)?;
    }
    Ok(tree)
}
