ghost use Rattle.std.specs.Prelude.{◌≡◌, map};
ghost use Rattle.std.specs.List.{list_any};
ghost use Rattle.abc_pred.specs.Maps.{lists};
ghost use Rattle.abc_pred.specs.Standing.{operand_of, expr_of, pred_of};
ghost use Rattle.abc_term.specs.Standing.{process_of, exprs_of, updates_of};
ghost use Rattle.abc_checks.specs.Variables.{operand_open, expr_open, pred_open, exprs_open, updates_open, process_open};
ghost use Rattle.abc_checks.specs.Scopes.{bound_in};

use crate::names::lists;
use abc_pred::{Expr, Name, Operand, Pred};
use abc_term::{Process, Update};

/// The variables of the inputs around a part, from the nearest on.
#[derive(Clone, Copy)]
pub enum Scope<'a> {
    Outside,
    Inside(&'a [Name], &'a Scope<'a>),
}

/// Whether the name is one of the scope's variables.
#[tactic(auto, using(crate::proofs::NamesMet::in_scope))]
fn binds(scope: &Scope<'_>, name: Name) -> bool
    ensures { result ≡ lists (bound_in scope.now) name }
{
    match scope {
        Scope::Outside => false,
        Scope::Inside(names, outer) => lists(names, name) || binds(outer, name),
    }
}

fn operand_open(scope: &Scope<'_>, operand: &Operand) -> bool
    ensures { result ≡ operand_open (bound_in scope.now) (operand_of operand.now) }
{
    match operand {
        Operand::Literal(_) | Operand::Attr(_) | Operand::This(_) => false,
        Operand::Var(name) => !binds(scope, *name),
        Operand::Add(left, right) | Operand::Sub(left, right) | Operand::Mul(left, right) => {
            operand_open(scope, left) || operand_open(scope, right)
        }
        Operand::Size(of) | Operand::Free(of) => operand_open(scope, of),
    }
}

fn operands_open(scope: &Scope<'_>, operands: &[Operand]) -> bool
    ensures { result ≡ list_any (operand_open (bound_in scope.now)) (map operand_of operands.now) }
{
    for operand in operands {
        if operand_open(scope, operand) {
            return true;
        }
    }
    false
}

fn expr_open(scope: &Scope<'_>, expr: &Expr) -> bool
    ensures { result ≡ expr_open (bound_in scope.now) (expr_of expr.now) }
{
    match expr {
        Expr::Plain(operand) => operand_open(scope, operand),
        Expr::SetOf(operands) => operands_open(scope, operands.as_slice()),
        Expr::Union(left, right) | Expr::Without(left, right) => {
            expr_open(scope, left) || expr_open(scope, right)
        }
    }
}

fn exprs_open(scope: &Scope<'_>, exprs: &[Expr]) -> bool
    ensures { result ≡ exprs_open (bound_in scope.now) (exprs_of exprs.now) }
{
    for expr in exprs {
        if expr_open(scope, expr) {
            return true;
        }
    }
    false
}

fn updates_open(scope: &Scope<'_>, updates: &[Update]) -> bool
    ensures { result ≡ updates_open (bound_in scope.now) (updates_of updates.now) }
{
    for update in updates {
        if expr_open(scope, &update.value) {
            return true;
        }
    }
    false
}

fn pred_open(scope: &Scope<'_>, pred: &Pred) -> bool
    ensures { result ≡ pred_open (bound_in scope.now) (pred_of pred.now) }
{
    match pred {
        Pred::True | Pred::False => false,
        Pred::Same(left, right) | Pred::Less(left, right) | Pred::Member(left, right) => {
            operand_open(scope, left) || operand_open(scope, right)
        }
        Pred::Not(of) => pred_open(scope, of),
        Pred::And(left, right) | Pred::Or(left, right) => {
            pred_open(scope, left) || pred_open(scope, right)
        }
    }
}

/// Whether the process has a variable that neither the scope nor an input around it binds.
pub fn process_open(scope: &Scope<'_>, process: &Process) -> bool
    ensures { result ≡ process_open (bound_in scope.now) (process_of process.now) }
{
    match process {
        Process::Nil | Process::Call(_) => false,
        Process::Output(exprs, pred, after) => {
            exprs_open(scope, exprs.as_slice())
                || pred_open(scope, pred)
                || updates_open(scope, after.updates.as_slice())
                || process_open(scope, &after.then)
        }
        Process::Input(pred, names, after) => {
            let inside = Scope::Inside(names.as_slice(), &*scope);
            pred_open(&inside, pred)
                || updates_open(&inside, after.updates.as_slice())
                || process_open(&inside, &after.then)
        }
        Process::When(guard, then) => pred_open(scope, guard) || process_open(scope, then),
        Process::Choice(left, right) | Process::Par(left, right) => {
            process_open(scope, left) || process_open(scope, right)
        }
    }
}
