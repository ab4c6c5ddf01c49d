//! The values of expressions, whatever gives their variables a value.
ghost use Rattle.std.specs.Prelude.{◌≡◌, [], IfOk, map};
ghost use Rattle.abc_pred.specs.Meaning.{val, expr_val};
ghost use Rattle.abc_pred.specs.Seeing.{other_of};
ghost use Rattle.abc_pred.specs.Standing.{operand_of, expr_of};
ghost use Rattle.abc_pred.specs.Terms.{SetOf};
ghost use Rattle.abc_term.specs.Substitution.{put_expr};

use abc_pred::{Env, Expr, Operand, Seen, Variables, look};
use abc_value::{List, NoMemory, Value, set_of, union, without};
use std::alloc::Global;

/// The component itself, whole, in the other's place.
fn itself(own: &Env) -> Seen<'_>
    ensures { other_of result ≡ own.now }
{
    Seen {
        env: own,
        shown: None,
    }
}

/// The values of these operands, in order.
fn operand_values<V: Variables>(
    alloc: Global,
    operands: &[Operand],
    own: &Env,
    vars: &V,
) -> Result<List<Value>, NoMemory>
    ensures { IfOk result (λ vs.
        vs ≡ map (λ o. val (operand_of o) own.now own.now (V.bound vars.now)) operands.now) }
{
    let mut values = List::new(alloc);
    for operand in operands {
        let value = look(operand, own, itself(own), vars).to_value(alloc)?;
        values.push(value)?;
    }
    Ok(values)
}

/// The set of the values of these operands.
fn set_of_operands<V: Variables>(
    alloc: Global,
    operands: &[Operand],
    own: &Env,
    vars: &V,
) -> Result<Value, NoMemory>
    ensures { IfOk result (λ v.
        v ≡ expr_val (SetOf (map operand_of operands.now)) own.now (V.bound vars.now)) }
{
    let listed = operand_values(alloc, operands, own, vars)?;
    set_of(alloc, listed.as_slice())
}

/// The value of an expression, `a` and `this.a` both read in `own`, and `$x` in `vars`.
fn value_of<V: Variables>(alloc: Global, e: &Expr, own: &Env, vars: &V) -> Result<Value, NoMemory>
    ensures { IfOk result (λ v. v ≡ expr_val (expr_of e.now) own.now (V.bound vars.now)) }
{
    match e {
        Expr::Plain(o) => look(o, own, itself(own), vars).to_value(alloc),
        Expr::SetOf(operands) => set_of_operands(alloc, operands.as_slice(), own, vars),
        Expr::Union(a, b) => {
            let a = value_of(alloc, a, own, vars)?;
            let b = value_of(alloc, b, own, vars)?;
            union(alloc, a.view(), b.view())
        }
        Expr::Without(a, b) => {
            let a = value_of(alloc, a, own, vars)?;
            let b = value_of(alloc, b, own, vars)?;
            without(alloc, a.view(), b.view())
        }
    }
}

/// The value of an expression in which the variables' values have been put.
pub fn evaluated<V: Variables>(
    alloc: Global,
    e: &Expr,
    own: &Env,
    vars: &V,
) -> Result<Value, NoMemory>
    ensures { IfOk result (λ v.
        v ≡ expr_val (put_expr (V.bound vars.now) (expr_of e.now)) own.now []) }
{
    value_of(alloc, e, own, vars)
}
