ghost use Rattle.std.specs.Prelude.{◌≡◌, IfOk, map};
ghost use Rattle.abc_value.specs.Values.{seen, number_value};
ghost use Rattle.abc_pred.specs.Meaning.{val, expr_val, sat, close, close_operand, IsClosed, IsClosedOperand};
ghost use Rattle.abc_pred.specs.Terms.{Literal, SetOf};
ghost use Rattle.abc_pred.specs.Standing.{operand_of, expr_of, pred_of};
ghost use Rattle.abc_pred.specs.Seeing.{other_of};

use crate::env::{Bindings, Env, Seen, Variables};
use crate::syntax::{Expr, Operand, Pred};
use abc_value::{
    NoMemory, Value, View, add, holds, least_free, less, mul, same, set_of, size, sub, union,
    without,
};
use std::alloc::Global;

fn number<'a>(n: Option<i64>) -> View<'a>
    ensures { seen result ≡ number_value n }
{
    match n {
        Some(n) => View::Number(n),
        None => View::Nothing,
    }
}

/// The value of an operand, looked at in place: `a` is read in `other`, `this.a` in `own` and `$x` in
/// `vars`. It takes no memory.
pub fn look<'a, V: Variables>(
    o: &'a Operand,
    own: &'a Env,
    other: Seen<'a>,
    vars: &'a V,
) -> View<'a>
    ensures { seen result ≡ val (operand_of o.now) own.now (other_of other.entry) (V.bound vars.now) }
{
    match o {
        Operand::Literal(v) => v.view(),
        Operand::Attr(n) => other.get(*n),
        Operand::This(n) => own.get(*n),
        Operand::Var(n) => vars.value(*n),
        Operand::Add(a, b) => number(add(look(a, own, other, vars), look(b, own, other, vars))),
        Operand::Sub(a, b) => number(sub(look(a, own, other, vars), look(b, own, other, vars))),
        Operand::Mul(a, b) => number(mul(look(a, own, other, vars), look(b, own, other, vars))),
        Operand::Size(a) => number(size(look(a, own, other, vars))),
        Operand::Free(a) => number(least_free(look(a, own, other, vars))),
    }
}

/// Whether the predicate holds: `a` is read in `other`, `this.a` in `own` and `$x` in `vars`. It takes
/// no memory.
pub fn sat<V: Variables>(p: &Pred, own: &Env, other: Seen<'_>, vars: &V) -> bool
    ensures { result ≡ sat (pred_of p.now) own.now (other_of other.entry) (V.bound vars.now) }
{
    match p {
        Pred::True => true,
        Pred::False => false,
        Pred::Same(a, b) => same(look(a, own, other, vars), look(b, own, other, vars)),
        Pred::Less(a, b) => less(look(a, own, other, vars), look(b, own, other, vars)),
        Pred::Member(a, b) => holds(look(a, own, other, vars), look(b, own, other, vars)),
        Pred::Not(p) => !sat(p, own, other, vars),
        Pred::And(p, q) => sat(p, own, other, vars) && sat(q, own, other, vars),
        Pred::Or(p, q) => sat(p, own, other, vars) || sat(q, own, other, vars),
    }
}

fn boxed<T: Drop>(alloc: Global, x: T) -> Result<Box<T>, NoMemory>
    ensures { IfOk result (λ b. b.value ≡ x) }
{
    Ok(Box::new(alloc, x)?)
}

fn boxed_literal(alloc: Global, v: View<'_>) -> Result<Box<Operand>, NoMemory>
    ensures { IfOk result (λ b. operand_of b.value ≡ Literal (seen v.entry)) }
{
    let v = v.to_value(alloc)?;
    boxed(alloc, Operand::Literal(v))
}

/// Boxed on the way back, so that a deep term takes little of the stack.
fn closed_operand(
    alloc: Global,
    o: &Operand,
    own: &Env,
    vars: &Bindings,
) -> Result<Box<Operand>, NoMemory>
    ensures { IfOk result (λ b. operand_of b.value ≡ close_operand (operand_of o.now) own.now vars.now) }
{
    match o {
        Operand::Literal(v) => boxed_literal(alloc, v.view()),
        Operand::Attr(a) => boxed(alloc, Operand::Attr(*a)),
        Operand::This(a) => boxed_literal(alloc, own.get(*a)),
        Operand::Var(x) => boxed_literal(alloc, vars.get(*x)),
        Operand::Add(l, r) => {
            let l = closed_operand(alloc, l, own, vars)?;
            let r = closed_operand(alloc, r, own, vars)?;
            boxed(alloc, Operand::Add(l, r))
        }
        Operand::Sub(l, r) => {
            let l = closed_operand(alloc, l, own, vars)?;
            let r = closed_operand(alloc, r, own, vars)?;
            boxed(alloc, Operand::Sub(l, r))
        }
        Operand::Mul(l, r) => {
            let l = closed_operand(alloc, l, own, vars)?;
            let r = closed_operand(alloc, r, own, vars)?;
            boxed(alloc, Operand::Mul(l, r))
        }
        Operand::Size(o) => boxed(alloc, Operand::Size(closed_operand(alloc, o, own, vars)?)),
        Operand::Free(o) => boxed(alloc, Operand::Free(closed_operand(alloc, o, own, vars)?)),
    }
}

/// Both operands closed.
fn closed_operands(
    alloc: Global,
    l: &Operand,
    r: &Operand,
    own: &Env,
    vars: &Bindings,
) -> Result<(Operand, Operand), NoMemory>
    ensures left { IfOk result (λ b. operand_of b.0 ≡ close_operand (operand_of l.now) own.now vars.now) }
    ensures right { IfOk result (λ b. operand_of b.1 ≡ close_operand (operand_of r.now) own.now vars.now) }
{
    let l = closed_operand(alloc, l, own, vars)?;
    let r = closed_operand(alloc, r, own, vars)?;
    Ok((Box::into_inner(l), Box::into_inner(r)))
}

/// Boxed on the way back, so that a deep term takes little of the stack.
fn closed_pred(alloc: Global, p: &Pred, own: &Env, vars: &Bindings) -> Result<Box<Pred>, NoMemory>
    ensures { IfOk result (λ b. pred_of b.value ≡ close (pred_of p.now) own.now vars.now) }
{
    match p {
        Pred::True => boxed(alloc, Pred::True),
        Pred::False => boxed(alloc, Pred::False),
        Pred::Same(l, r) => {
            let (l, r) = closed_operands(alloc, l, r, own, vars)?;
            boxed(alloc, Pred::Same(l, r))
        }
        Pred::Less(l, r) => {
            let (l, r) = closed_operands(alloc, l, r, own, vars)?;
            boxed(alloc, Pred::Less(l, r))
        }
        Pred::Member(l, r) => {
            let (l, r) = closed_operands(alloc, l, r, own, vars)?;
            boxed(alloc, Pred::Member(l, r))
        }
        Pred::Not(p) => boxed(alloc, Pred::Not(closed_pred(alloc, p, own, vars)?)),
        Pred::And(p, q) => {
            let p = closed_pred(alloc, p, own, vars)?;
            let q = closed_pred(alloc, q, own, vars)?;
            boxed(alloc, Pred::And(p, q))
        }
        Pred::Or(p, q) => {
            let p = closed_pred(alloc, p, own, vars)?;
            let q = closed_pred(alloc, q, own, vars)?;
            boxed(alloc, Pred::Or(p, q))
        }
    }
}

/// The predicate with each `this.a` and each `$x` replaced by the literal of its value: AbC's closing,
/// which a sender does before it sends.
pub fn close(alloc: Global, p: &Pred, own: &Env, vars: &Bindings) -> Result<Pred, NoMemory>
    ensures closing { IfOk result (λ r. pred_of r ≡ close (pred_of p.now) own.now vars.now) }
    ensures closed { IfOk result (λ r. IsClosed (pred_of r)) }
{
    let closed = closed_pred(alloc, p, own, vars)?;
    Ok(Box::into_inner(closed))
}

/// The component itself, whole, in the other's place.
fn itself(own: &Env) -> Seen<'_>
    ensures { other_of result ≡ own.now }
{
    Seen {
        env: own,
        shown: None,
    }
}

/// The values of these operands, in order.
fn values(
    alloc: Global,
    operands: &[Operand],
    own: &Env,
    vars: &Bindings,
) -> Result<Vec<Value>, NoMemory>
    ensures { IfOk result (λ vs. vs.items ≡ map (λ o. val (operand_of o) own.now own.now vars.now) operands.now) }
{
    let mut values = Vec::new(alloc);
    for operand in operands {
        let value = look(operand, own, itself(own), vars).to_value(alloc)?;
        values.push(value)?;
    }
    Ok(values)
}

/// The set of the values of these operands.
fn set_of_operands(
    alloc: Global,
    operands: &[Operand],
    own: &Env,
    vars: &Bindings,
) -> Result<Value, NoMemory>
    ensures { IfOk result (λ v. v ≡ expr_val (SetOf (map operand_of operands.now)) own.now vars.now) }
{
    let listed = values(alloc, operands, own, vars)?;
    set_of(alloc, &listed)
}

/// The value of an expression of a tuple or an update, where `a` and `this.a` both are the own
/// attribute.
pub fn eval(alloc: Global, e: &Expr, own: &Env, vars: &Bindings) -> Result<Value, NoMemory>
    ensures { IfOk result (λ v. v ≡ expr_val (expr_of e.now) own.now vars.now) }
{
    match e {
        Expr::Plain(o) => look(o, own, itself(own), vars).to_value(alloc),
        Expr::SetOf(operands) => set_of_operands(alloc, operands.as_slice(), own, vars),
        Expr::Union(a, b) => {
            let a = eval(alloc, a, own, vars)?;
            let b = eval(alloc, b, own, vars)?;
            union(alloc, a.view(), b.view())
        }
        Expr::Without(a, b) => {
            let a = eval(alloc, a, own, vars)?;
            let b = eval(alloc, b, own, vars)?;
            without(alloc, a.view(), b.view())
        }
    }
}
