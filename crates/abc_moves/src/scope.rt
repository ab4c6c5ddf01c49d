ghost use Rattle.std.specs.Prelude.{◌≡◌, [], IfOk, length};
ghost use Rattle.abc_value.specs.Values.{seen};
ghost use Rattle.abc_pred.specs.Maps.{look_up};
ghost use Rattle.abc_pred.specs.Meaning.{sat, close, expr_val, IsClosed};
ghost use Rattle.abc_pred.specs.Standing.{expr_of, pred_of};
ghost use Rattle.abc_pred.specs.Seeing.{other_of};
ghost use Rattle.abc_term.specs.Substitution.{put_pred, put_expr};
ghost use Rattle.abc_moves.specs.Scopes.{values_in, IsScope, bind_all, PutsInside};

use abc_pred::{Bindings, Env, Expr, Name, Pred, Seen, Variables, close, eval, sat};
use abc_value::{List, NoMemory, Value, View};
use std::alloc::Global;
use std::marker::Model;

/// The values that inputs have bound, beside a process in whose text the variables still stand.
///
/// Contracts see it as the values put for the variables, none among them.
#[derive(Drop)]
pub struct Scope {
    bound: List<Name>,
    vars: Bindings,
}

impl Model for Scope {
    ghost use Rattle.abc_term.specs.Substitution.{Values};

    ghost Value = { Values };

    ghost use Rattle.abc_moves.specs.Scopes.{values_in, IsScope};

    ghost view = { λ s. values_in s.bound s.vars };

    ghost invariant = { λ s. IsScope s.bound s.vars };
}

impl Scope {
    /// No variable is bound. It takes no memory.
    pub fn empty(alloc: Global) -> Scope
        ensures { result ≡ [] }
    {
        Scope {
            bound: List::new(alloc),
            vars: Bindings::empty(alloc),
        }
    }

    /// The variable's value, `Nothing` where it is not bound.
    pub fn get(&self, x: Name) -> View<'_>
        ensures { seen result ≡ look_up self.now x }
    {
        self.vars.get(x)
    }

    /// Whether the predicate holds, its variables having these values.
    pub fn satisfies(&self, p: &Pred, own: &Env, other: Seen<'_>) -> bool
        ensures { result ≡ sat (put_pred self.now (pred_of p.now)) own.now (other_of other.entry) [] }
    {
        sat(p, own, other, &self.vars)
    }

    /// The predicate that a sender with these variables and attributes sends.
    pub fn closed(&self, alloc: Global, p: &Pred, own: &Env) -> Result<Pred, NoMemory>
        ensures closing { IfOk result (λ c. pred_of c ≡ close (put_pred self.now (pred_of p.now)) own.now []) }
        ensures closed { IfOk result (λ c. IsClosed (pred_of c)) }
    {
        close(alloc, p, own, &self.vars)
    }

    /// The value of an expression, its variables having these values.
    pub fn value(&self, alloc: Global, e: &Expr, own: &Env) -> Result<Value, NoMemory>
        ensures { IfOk result (λ v. v ≡ expr_val (put_expr self.now (expr_of e.now)) own.now []) }
    {
        eval(alloc, e, own, &self.vars)
    }

    /// The same bindings with memory of their own.
    pub fn copy(&self, alloc: Global) -> Result<Scope, NoMemory>
        ensures { IfOk result (λ s. s ≡ self.now) }
    {
        let bound = names_copy(alloc, self.bound.as_slice())?;
        let vars = self.vars.copy(alloc)?;
        Ok(scope_of(bound, vars))
    }

    /// The bindings inside an input that binds these variables anew, to these values.
    pub fn inside(&self, alloc: Global, xs: &[Name], values: &[Value]) -> Result<Scope, NoMemory>
        requires { length xs.now ≡ length values.now }
        ensures { IfOk result (λ s. PutsInside xs.now values.now self.now s) }
    {
        let mut bound = names_copy(alloc, self.bound.as_slice())?;
        bound.extend_from_slice(xs)?;
        let mut vars = self.vars.copy(alloc)?;
        bind_each(alloc, &mut vars, xs, values)?;
        Ok(scope_of(bound, vars))
    }
}

impl Variables for Scope {
    ghost bound = { λ s. s };

    fn value(&self, x: Name) -> View<'_> {
        self.get(x)
    }
}

fn scope_of(bound: List<Name>, vars: Bindings) -> Scope
    requires { IsScope bound vars }
    ensures { result ≡ values_in bound vars }
{
    Scope { bound, vars }
}

fn names_copy(alloc: Global, names: &[Name]) -> Result<List<Name>, NoMemory>
    ensures { IfOk result (λ l. l ≡ names.now) }
{
    let mut copied = List::new(alloc);
    copied.extend_from_slice(names)?;
    Ok(copied)
}

/// Each variable gets its value, the last first.
fn bind_each(
    alloc: Global,
    vars: &mut Bindings,
    xs: &[Name],
    values: &[Value],
) -> Result<(), NoMemory>
    ensures { IfOk result (λ _. vars.new ≡ bind_all xs.now values.now vars.old) }
{
    if let [x, xs @ ..] = xs {
        if let [v, values @ ..] = values {
            bind_each(alloc, vars, xs, values)?;
            return vars.bind(*x, v.view().to_value(alloc)?);
        }
    }
    Ok(())
}
