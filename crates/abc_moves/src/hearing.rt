ghost use Rattle.std.specs.Prelude.{◌≡◌, IfOk, length, unwrap_or};
ghost use Rattle.std.specs.List.{zip};
ghost use Rattle.abc_term.specs.Standing.{process_of};
ghost use Rattle.abc_term.specs.Substitution.{put, outside};
ghost use Rattle.abc_moves.specs.Walks.{ComesTo};
ghost use Rattle.abc_moves.specs.Arounds.{ins_here, IsMeantHere};
ghost use Rattle.abc_moves.specs.Labels.{label_of};
ghost use Rattle.abc_moves.specs.Sites.{TakesSite, taken_env, taken_process};
ghost use Rattle.abc_moves.specs.Trees.{process_in};

use crate::around::Around;
use crate::label::Label;
use crate::made::Move;
use crate::scope::Scope;
use crate::site::{Beside, InputAction, Site, joined};
use crate::tree::Tree;
use crate::updates::updated;
use crate::walk::{Walk, holds, takes};
use crate::wanted::Heard;
use abc_pred::Name;
use abc_term::Process;
use abc_value::{NoMemory, Value};
use std::alloc::Global;

/// An input that a walk has found.
pub type Taking<'a, 'p> = Box<Site<'a, 'p, InputAction<'p>>>;

/// The input, in the leaf of a number, takes the message.
pub fn heard<'p>(
    alloc: Global,
    at: &Around<'_, 'p>,
    label: &Label,
    leaf: u32,
    site: &Site<'_, 'p, InputAction<'p>>,
) -> Result<Move<'p>, NoMemory>
    requires { length site.now.action.xs.now ≡ length label.now.values }
    ensures leaf { IfOk result (λ m. m.leaf ≡ leaf) }
    ensures env { IfOk result
        (λ m. unwrap_or m.env at.now.env.now ≡ taken_env at.now (label_of label.now) site.now) }
    ensures tree { IfOk result (λ m. process_in m.tree ≡ taken_process (label_of label.now) site.now) }
{
    let InputAction { xs, after } = site.action;
    let xs = xs.as_slice();
    let values = label.values.as_slice();
    let scope = site.scope;
    let env = updated(
        alloc,
        at.env,
        &Heard { xs, values, scope },
        after.updates.as_slice(),
    )?;
    let inside = bound_behind(alloc, &after.then, scope, xs, values)?;
    let then = Tree::Leaf(&after.then, inside);
    let tree = joined(alloc, then, site.beside.as_slice())?;
    Ok(Move { leaf, env, tree })
}

/// The bindings of what follows an input that binds these variables to these values. `0` and a call
/// have no variables, so nothing is bound for them.
fn bound_behind(
    alloc: Global,
    p: &Process,
    scope: &Scope,
    xs: &[Name],
    values: &[Value],
) -> Result<Scope, NoMemory>
    requires { length xs.now ≡ length values.now }
    ensures { IfOk result (λ s. put s (process_of p.now)
        ≡ put (zip xs.now values.now) (put (outside xs.now scope.now) (process_of p.now))) }
{
    match p {
        Process::Nil | Process::Call(_) => Ok(Scope::empty(alloc)),
        _ => scope.inside(alloc, xs, values),
    }
}

/// A walk over the process for its input at a place, among those that take a message which is meant for
/// the component. Calls are unfolded to the depth.
pub fn input_at<'a, 'p>(
    alloc: Global,
    at: &'a Around<'_, 'p>,
    label: &Label,
    depth: usize,
    scope: &'a Scope,
    p: &'p Process,
    place: u32,
) -> Result<Walk<Taking<'a, 'p>>, NoMemory>
    requires { IsMeantHere at.now (label_of label.now) }
    ensures { IfOk result (ComesTo
        (λ s. TakesSite at.now (label_of label.now) depth (put scope.now (process_of p.now)) place s.value)
        place (ins_here at.now (label_of label.now) depth (put scope.now (process_of p.now)))) }
{
    match p {
        Process::Input(p, xs, after) => {
            if !takes(at, label, scope, p, xs.as_slice()) {
                Ok(Walk::Passed(0))
            } else if place == 0 {
                let action = InputAction { xs, after };
                Ok(Walk::Found(Site::alone(alloc, action, scope)?))
            } else {
                Ok(Walk::Passed(1))
            }
        }
        Process::When(g, p) => {
            if holds(at, scope, g) {
                input_at(alloc, at, label, depth, scope, p, place)
            } else {
                Ok(Walk::Passed(0))
            }
        }
        Process::Choice(p, q) => match input_at(alloc, at, label, depth, scope, p, place)? {
            Walk::Found(s) => Ok(Walk::Found(s)),
            Walk::Passed(n) => match input_at(alloc, at, label, depth, scope, q, place - n)? {
                Walk::Found(s) => Ok(Walk::Found(s)),
                Walk::Passed(m) => Ok(Walk::Passed(n + m)),
            },
        },
        Process::Par(p, q) => match input_at(alloc, at, label, depth, scope, p, place)? {
            Walk::Found(s) => Ok(Walk::Found(Site::with_beside(s, Beside::Right(q, scope))?)),
            Walk::Passed(n) => match input_at(alloc, at, label, depth, scope, q, place - n)? {
                Walk::Found(s) => Ok(Walk::Found(Site::with_beside(s, Beside::Left(p, scope))?)),
                Walk::Passed(m) => Ok(Walk::Passed(n + m)),
            },
        },
        Process::Call(c) => match at.bodies.callee(depth, *c) {
            Some(body) => input_at(alloc, at, label, depth - 1, &at.unbound, body, place),
            None => Ok(Walk::Passed(0)),
        },
        Process::Nil | Process::Output(_, _, _) => Ok(Walk::Passed(0)),
    }
}
