ghost use Rattle.std.specs.Prelude.{◌≡◌, ◌<◌, ◌^◌, []};
ghost use Rattle.abc_term.specs.Standing.{process_of};
ghost use Rattle.abc_term.specs.Substitution.{put, put_pred, outside};
ghost use Rattle.abc_pred.specs.Meaning.{sat};
ghost use Rattle.abc_pred.specs.Standing.{pred_of};
ghost use Rattle.abc_term.specs.Hearing.{takes, is_meant};
ghost use Rattle.abc_moves.specs.Labels.{label_of};
ghost use Rattle.abc_moves.specs.Arounds.{outs_here, ins_here, IsMeantHere};

use crate::around::Around;
use crate::label::Label;
use crate::scope::Scope;
use crate::wanted::Heard;
use abc_pred::{Name, Pred, Seen};
use abc_term::Process;

/// What a walk from the left for the move at a place comes to.
#[derive(Drop)]
pub enum Walk<M> {
    /// The move at the place.
    Found(M),
    /// There are so many moves, and none is at the place.
    Passed(u32),
}

/// Whether a guard holds in the component's own environment.
pub fn holds(at: &Around<'_, '_>, scope: &Scope, g: &Pred) -> bool
    ensures { result ≡ sat (put_pred scope.now (pred_of g.now)) at.now.env.now at.now.env.now [] }
{
    let own = Seen {
        env: at.env,
        shown: None,
    };
    scope.satisfies(g, at.env, own)
}

/// Whether the component's interface satisfies the sender's predicate: no input takes the message else.
pub fn is_meant(at: &Around<'_, '_>, label: &Label) -> bool
    ensures { result ≡ is_meant (label_of label.now) at.now.env.now at.now.interface.now }
{
    let seen = Seen {
        env: at.env,
        shown: Some(at.interface),
    };
    at.unbound.satisfies(&label.pred, &at.nobody, seen)
}

/// Whether the input takes a message that is meant for the component: it has as many values as the input
/// has variables, and the sender's interface satisfies the input's predicate.
pub fn takes(at: &Around<'_, '_>, label: &Label, scope: &Scope, p: &Pred, xs: &[Name]) -> bool
    requires { IsMeantHere at.now (label_of label.now) }
    ensures { result
        ≡ takes (label_of label.now) at.now.env.now at.now.interface.now (put_pred (outside xs.now scope.now) (pred_of p.now)) xs.now }
{
    if label.values.len() != xs.len() {
        return false;
    }
    let heard = Heard {
        xs,
        values: label.values.as_slice(),
        scope,
    };
    heard.is_wanted(p, at.env, &label.shown)
}

/// How many outputs of the process are enabled, calls unfolded to the depth.
pub fn outputs(at: &Around<'_, '_>, depth: usize, scope: &Scope, p: &Process) -> u32
    requires { outs_here at.now depth (put scope.now (process_of p.now)) < 2 ^ 32 }
    ensures { result ≡ outs_here at.now depth (put scope.now (process_of p.now)) }
{
    match p {
        Process::Output(_, _, _) => 1,
        Process::When(g, p) => {
            if holds(at, scope, g) {
                outputs(at, depth, scope, p)
            } else {
                0
            }
        }
        Process::Choice(p, q) | Process::Par(p, q) => {
            outputs(at, depth, scope, p) + outputs(at, depth, scope, q)
        }
        Process::Call(c) => match at.bodies.callee(depth, *c) {
            Some(body) => outputs(at, depth - 1, &at.unbound, body),
            None => 0,
        },
        Process::Nil | Process::Input(_, _, _) => 0,
    }
}

/// How many inputs of the process take a message that is meant for the component, calls unfolded to the
/// depth.
pub fn inputs(at: &Around<'_, '_>, label: &Label, depth: usize, scope: &Scope, p: &Process) -> u32
    requires meant { IsMeantHere at.now (label_of label.now) }
    requires fits { ins_here at.now (label_of label.now) depth (put scope.now (process_of p.now)) < 2 ^ 32 }
    ensures { result ≡ ins_here at.now (label_of label.now) depth (put scope.now (process_of p.now)) }
{
    match p {
        Process::Input(p, xs, _) => u32::from(takes(at, label, scope, p, xs.as_slice())),
        Process::When(guard, p) => {
            if holds(at, scope, guard) {
                inputs(at, label, depth, scope, p)
            } else {
                0
            }
        }
        Process::Choice(p, q) | Process::Par(p, q) => {
            inputs(at, label, depth, scope, p) + inputs(at, label, depth, scope, q)
        }
        Process::Call(c) => match at.bodies.callee(depth, *c) {
            Some(body) => inputs(at, label, depth - 1, &at.unbound, body),
            None => 0,
        },
        Process::Nil | Process::Output(_, _, _) => 0,
    }
}
