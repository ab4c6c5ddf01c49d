//! What no clause says: that each call succeeds with ample memory, and that deep terms fit the stack.

use crate::{Bindings, Env, Expr, Interface, Name, Operand, Pred, Seen, close, eval, sat};
use abc_value::{List, NoMemory, Scalar, Value, View, holds, same, size};
use std::alloc::Global;
use std::test::Fail;

const G: Name = Name(3);

fn number(n: i64) -> Value {
    Value::Scalar(Scalar::Number(n))
}

/// The environment in which `g` alone has a value.
fn where_g_is(alloc: Global, n: i64) -> Result<Env, NoMemory> {
    let mut env = Env::empty(alloc);
    env.set(G, number(n))?;
    Ok(env)
}

/// 7, 2 and 5 get values, 2 another one, and 7 loses its.
fn after_changes(alloc: Global) -> Result<Env, NoMemory> {
    let mut env = Env::empty(alloc);
    for (name, n) in [(7, 1), (2, 2), (5, 3), (2, 4)] {
        env.set(Name(name), number(n))?;
    }
    env.set(Name(7), Value::Nothing)?;
    Ok(env)
}

#[test]
fn a_map_keeps_the_last_value_of_a_name(rt: HostRuntime) -> Result<(), Fail> {
    let env = after_changes(rt.alloc())?.copy(rt.alloc())?;
    assert!(rt; same(env.get(Name(2)), View::Number(4)), "2 was set again");
    assert!(rt; same(env.get(Name(5)), View::Number(3)), "5 was set once");
    assert!(rt; same(env.get(Name(7)), View::Nothing), "7 was removed");
    assert_eq!(rt; env.entries().len(), 2);
    Ok(())
}

#[test]
fn shown_has_the_names_of_the_interface(rt: HostRuntime) -> Result<(), Fail> {
    let env = after_changes(rt.alloc())?;
    let names = [Name(9), Name(5), Name(7), Name(5)];
    let interface = Interface::of(rt.alloc(), &names)?.copy(rt.alloc())?;
    assert!(rt;
        interface.has(Name(7)) && !interface.has(Name(2)),
        "the names of the interface"
    );
    let shown = env.shown(rt.alloc(), &interface)?;
    assert!(rt; same(shown.get(Name(5)), View::Number(3)), "5 is shown");
    assert_eq!(rt; shown.entries().len(), 1);
    Ok(())
}

fn bound(alloc: Global, first: i64, second: i64) -> Result<Bindings, NoMemory> {
    let mut vars = Bindings::empty(alloc);
    vars.bind(G, number(first))?;
    vars.bind(G, number(second))?;
    Ok(vars)
}

/// `union(set($g), without(set($g), set($g)))`
fn set_expression(alloc: Global) -> Result<Expr, NoMemory> {
    let single = single(alloc)?;
    let difference = Expr::Without(single_boxed(alloc)?, single_boxed(alloc)?);
    Ok(Expr::Union(Box::new(alloc, single)?, Box::new(alloc, difference)?))
}

fn single(alloc: Global) -> Result<Expr, NoMemory> {
    let mut operands = List::new(alloc);
    operands.push(Operand::Var(G))?;
    Ok(Expr::SetOf(operands))
}

fn single_boxed(alloc: Global) -> Result<Box<Expr>, NoMemory> {
    Ok(Box::new(alloc, single(alloc)?)?)
}

#[test]
fn a_later_binding_is_the_one_in_a_set(rt: HostRuntime) -> Result<(), Fail> {
    let vars = bound(rt.alloc(), 1, 2)?.copy(rt.alloc())?;
    let own = Env::empty(rt.alloc());
    let e = set_expression(rt.alloc())?;
    let value = eval(rt.alloc(), &e, &own, &vars)?;
    assert!(rt; holds(View::Number(2), value.view()), "the set has 2");
    assert_eq!(rt; size(value.view()), Some(1));
    Ok(())
}

/// Whether `this.g = g`, closed where `g` is 2, holds where it is `n` and shown.
fn holds_at(alloc: Global, n: i64) -> Result<bool, NoMemory> {
    let open = Pred::Same(Operand::This(G), Operand::Attr(G));
    let closed = closed_where_g_is(alloc, &open, 2)?;
    let receiver = where_g_is(alloc, n)?;
    asks(alloc, &closed, &receiver)
}

fn closed_where_g_is(alloc: Global, p: &Pred, n: i64) -> Result<Pred, NoMemory> {
    let sender = where_g_is(alloc, n)?;
    let none = Bindings::empty(alloc);
    close(alloc, p, &sender, &none)
}

/// Whether a closed predicate holds of a receiver that shows `g`.
fn asks(alloc: Global, p: &Pred, receiver: &Env) -> Result<bool, NoMemory> {
    let interface = Interface::of(alloc, &[G])?;
    let own = Env::empty(alloc);
    let none = Bindings::empty(alloc);
    Ok(sat(p, &own, seen(receiver, &interface), &none))
}

fn seen<'a>(env: &'a Env, interface: &'a Interface) -> Seen<'a> {
    let shown = Some(interface);
    Seen { env, shown }
}

#[test]
fn a_closed_predicate_asks_the_receiver(rt: HostRuntime) -> Result<(), Fail> {
    assert!(rt; holds_at(rt.alloc(), 2)?, "2 = g holds where g is 2");
    assert!(rt;
        !holds_at(rt.alloc(), 3)?,
        "2 = g doesn't hold where g is 3"
    );
    Ok(())
}

/// `this.g + this.g + ..` with this many sums, nested to the left.
fn left_chain(alloc: Global, sums: u32) -> Result<Operand, NoMemory> {
    let mut sum = Operand::This(G);
    for _ in 0..sums {
        let right = Box::new(alloc, Operand::This(G))?;
        sum = Operand::Add(Box::new(alloc, sum)?, right);
    }
    Ok(sum)
}

/// `not [not [.. p]]` with this many brackets.
fn negated(alloc: Global, times: u32, p: Pred) -> Result<Pred, NoMemory> {
    let mut negated = p;
    for _ in 0..times {
        negated = Pred::Not(Box::new(alloc, negated)?);
    }
    Ok(negated)
}

/// The value where `this.g` is 1.
fn value(alloc: Global, o: Operand) -> Result<Value, NoMemory> {
    let own = where_g_is(alloc, 1)?;
    let none = Bindings::empty(alloc);
    let e = Expr::Plain(o);
    eval(alloc, &e, &own, &none)
}

/// `not [not [.. this.g + this.g + .. = n]]` with 100 brackets, closed where `g` is 1.
fn deep_pred(alloc: Global, sums: u32, n: i64) -> Result<Pred, NoMemory> {
    let equal = Pred::Same(left_chain(alloc, sums)?, Operand::Literal(number(n)));
    let p = negated(alloc, 100, equal)?;
    closed_where_g_is(alloc, &p, 1)
}

#[test]
fn deep_terms_fit_the_stack(rt: HostRuntime) -> Result<(), Fail> {
    let sum = value(rt.alloc(), left_chain(rt.alloc(), 2000)?)?;
    assert!(rt; same(sum.view(), View::Number(2001)), "the sum of 2,001");
    let p = deep_pred(rt.alloc(), 2000, 2001)?;
    let nobody = Env::empty(rt.alloc());
    assert!(rt;
        asks(rt.alloc(), &p, &nobody)?,
        "the closed predicate holds"
    );
    Ok(())
}

fn may_cross<T: Send + Sync>(_value: &T) {}

#[test]
fn terms_and_maps_cross_threads(rt: HostRuntime) {
    may_cross(&Env::empty(rt.alloc()));
    may_cross(&Bindings::empty(rt.alloc()));
    may_cross(&Expr::Plain(Operand::Var(G)));
    may_cross(&Pred::True);
}
