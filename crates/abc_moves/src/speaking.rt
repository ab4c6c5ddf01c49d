ghost use Rattle.std.specs.Prelude.{◌≡◌, IfOk, map, unwrap_or};
ghost use Rattle.abc_pred.specs.Standing.{pred_of};
ghost use Rattle.abc_term.specs.Standing.{process_of, exprs_of};
ghost use Rattle.abc_term.specs.Substitution.{put, put_pred, put_expr};
ghost use Rattle.abc_term.specs.Speaking.{values_of, label_from};
ghost use Rattle.abc_moves.specs.Walks.{ComesTo};
ghost use Rattle.abc_moves.specs.Arounds.{outs_here};
ghost use Rattle.abc_moves.specs.Labels.{label_of};
ghost use Rattle.abc_moves.specs.Sites.{SaysSite, said_label, said_env, said_process};
ghost use Rattle.abc_moves.specs.Trees.{process_in};

use crate::around::Around;
use crate::label::Label;
use crate::made::Move;
use crate::scope::Scope;
use crate::site::{Beside, OutputAction, Site, joined};
use crate::tree::Tree;
use crate::updates::updated;
use crate::walk::{Walk, holds};
use abc_pred::{Env, Expr, Pred};
use abc_term::Process;
use abc_value::{List, NoMemory, Value};
use std::alloc::Global;

/// An output that a walk has found.
pub type Saying<'a, 'p> = Box<Site<'a, 'p, OutputAction<'p>>>;

fn values(alloc: Global, env: &Env, scope: &Scope, es: &[Expr]) -> Result<List<Value>, NoMemory>
    ensures { IfOk result (λ vs. vs ≡ values_of (map (put_expr scope.now) (exprs_of es.now)) env.now) }
{
    let mut values = List::new(alloc);
    for e in es {
        values.push(scope.value(alloc, e, env)?)?;
    }
    Ok(values)
}

/// The label of an output, from the environment before its updates.
fn say(
    alloc: Global,
    at: &Around<'_, '_>,
    scope: &Scope,
    es: &[Expr],
    pred: &Pred,
) -> Result<Label, NoMemory>
    ensures { IfOk result
        (λ l. label_of l
        ≡ label_from at.now.env.now at.now.interface.now
        (map (put_expr scope.now) (exprs_of es.now)) (put_pred scope.now (pred_of pred.now))) }
{
    let shown = at.env.shown(alloc, at.interface)?;
    let pred = scope.closed(alloc, pred, at.env)?;
    let values = values(alloc, at.env, scope, es)?;
    Ok(Label {
        shown,
        pred,
        values,
    })
}

/// The output says this.
pub fn said(
    alloc: Global,
    at: &Around<'_, '_>,
    site: &Site<'_, '_, OutputAction<'_>>,
) -> Result<Label, NoMemory>
    ensures { IfOk result (λ l. label_of l ≡ said_label at.now site.now) }
{
    let OutputAction { es, pred, after: _ } = site.action;
    say(alloc, at, site.scope, es.as_slice(), pred)
}

/// The output, in the leaf of a number, is made.
pub fn spoken<'p>(
    alloc: Global,
    at: &Around<'_, 'p>,
    leaf: u32,
    site: &Site<'_, 'p, OutputAction<'p>>,
) -> Result<Move<'p>, NoMemory>
    ensures leaf { IfOk result (λ m. m.leaf ≡ leaf) }
    ensures env { IfOk result (λ m. unwrap_or m.env at.now.env.now ≡ said_env at.now site.now) }
    ensures tree { IfOk result (λ m. process_in m.tree ≡ said_process site.now) }
{
    let after = site.action.after;
    let env = updated(alloc, at.env, site.scope, after.updates.as_slice())?;
    let then = Tree::leaf(alloc, &after.then, site.scope)?;
    let tree = joined(alloc, then, site.beside.as_slice())?;
    Ok(Move { leaf, env, tree })
}

/// A walk over the process for its output at a place, calls unfolded to the depth.
pub fn output_at<'a, 'p>(
    alloc: Global,
    at: &'a Around<'_, 'p>,
    depth: usize,
    scope: &'a Scope,
    p: &'p Process,
    place: u32,
) -> Result<Walk<Saying<'a, 'p>>, NoMemory>
    ensures { IfOk result (ComesTo
        (λ s. SaysSite at.now depth (put scope.now (process_of p.now)) place s.value)
        place (outs_here at.now depth (put scope.now (process_of p.now)))) }
{
    match p {
        Process::Output(es, pred, after) => {
            if place == 0 {
                let action = OutputAction { es, pred, after };
                Ok(Walk::Found(Site::alone(alloc, action, scope)?))
            } else {
                Ok(Walk::Passed(1))
            }
        }
        Process::When(g, p) => {
            if holds(at, scope, g) {
                output_at(alloc, at, depth, scope, p, place)
            } else {
                Ok(Walk::Passed(0))
            }
        }
        Process::Choice(p, q) => match output_at(alloc, at, depth, scope, p, place)? {
            Walk::Found(s) => Ok(Walk::Found(s)),
            Walk::Passed(n) => match output_at(alloc, at, depth, scope, q, place - n)? {
                Walk::Found(s) => Ok(Walk::Found(s)),
                Walk::Passed(m) => Ok(Walk::Passed(n + m)),
            },
        },
        Process::Par(p, q) => match output_at(alloc, at, depth, scope, p, place)? {
            Walk::Found(s) => Ok(Walk::Found(Site::with_beside(s, Beside::Right(q, scope))?)),
            Walk::Passed(n) => match output_at(alloc, at, depth, scope, q, place - n)? {
                Walk::Found(s) => Ok(Walk::Found(Site::with_beside(s, Beside::Left(p, scope))?)),
                Walk::Passed(m) => Ok(Walk::Passed(n + m)),
            },
        },
        Process::Call(c) => match at.bodies.callee(depth, *c) {
            Some(body) => output_at(alloc, at, depth - 1, &at.unbound, body, place),
            None => Ok(Walk::Passed(0)),
        },
        Process::Nil | Process::Input(_, _, _) => Ok(Walk::Passed(0)),
    }
}
