//! What no clause says: that each call succeeds with ample memory, and that deep terms fit the stack.

use crate::{print_name, print_pred, print_program};
use abc_pred::{Expr, Name, Operand, Pred};
use abc_term::{After, Component, Definition, Process, Program, Update};
use abc_value::{List, NoMemory, Scalar, SetValue, ShortText, Value};
use std::alloc::Global;
use std::test::Fail;

const A: Name = Name(0);

const N: Name = Name(1);

const X: Name = Name(2);

const Z: Name = Name(3);

/// The words of these four names.
fn words(alloc: Global) -> Result<List<ShortText>, NoMemory> {
    let mut words = List::new(alloc);
    for word in [b"A", b"n", b"x", b"z"] {
        words.push(text(word))?;
    }
    Ok(words)
}

fn text(bytes: &[u8]) -> ShortText {
    match ShortText::from_bytes(bytes) {
        Some(text) => text,
        None => ShortText::empty(),
    }
}

fn number(n: i64) -> Operand {
    Operand::Literal(Value::Scalar(Scalar::Number(n)))
}

/// `{-1, "\"", true}`
fn set(alloc: Global) -> Result<Operand, NoMemory> {
    let mut set = SetValue::empty(alloc);
    set.push(Scalar::Number(-1))?;
    set.push(Scalar::Text(text(b"\"")))?;
    set.push(Scalar::Truth(true))?;
    Ok(Operand::Literal(Value::Set(set)))
}

/// `(n + 1) * $x`
fn product(alloc: Global) -> Result<Operand, NoMemory> {
    let sum = Operand::Add(
        Box::new(alloc, Operand::Attr(N))?,
        Box::new(alloc, number(1))?,
    );
    Ok(Operand::Mul(Box::new(alloc, sum)?, Box::new(alloc, Operand::Var(X))?))
}

/// `not [this.n < 2 or n in {-1, "\"", true}]`
fn pred(alloc: Global) -> Result<Pred, NoMemory> {
    let less = Pred::Less(Operand::This(N), number(2));
    let member = Pred::Member(Operand::Attr(N), set(alloc)?);
    let either = Pred::Or(Box::new(alloc, less)?, Box::new(alloc, member)?);
    Ok(Pred::Not(Box::new(alloc, either)?))
}

/// `? (tt) ($x) . [n := (n + 1) * $x] {A | 0}`
fn input(alloc: Global) -> Result<Process, NoMemory> {
    let mut variables = List::new(alloc);
    variables.push(X)?;
    let mut updates = List::new(alloc);
    updates.push(Update {
        name: N,
        value: Expr::Plain(product(alloc)?),
    })?;
    let both = Process::Par(
        Box::new(alloc, Process::Call(A))?,
        Box::new(alloc, Process::Nil)?,
    );
    let then = Box::new(alloc, both)?;
    Ok(Process::Input(Pred::True, variables, After { updates, then }))
}

/// `(set(n), n) @ (ff) . 0`
fn output(alloc: Global) -> Result<Process, NoMemory> {
    let mut items = List::new(alloc);
    items.push(Operand::Attr(N))?;
    let mut exprs = List::new(alloc);
    exprs.push(Expr::SetOf(items))?;
    exprs.push(Expr::Plain(Operand::Attr(N)))?;
    let updates = List::new(alloc);
    let then = Box::new(alloc, Process::Nil)?;
    Ok(Process::Output(exprs, Pred::False, After { updates, then }))
}

fn boxed_output(alloc: Global) -> Result<Box<Process>, NoMemory> {
    let output = output(alloc)?;
    Ok(Box::new(alloc, output)?)
}

/// The input under a guard.
fn boxed_guarded(alloc: Global) -> Result<Box<Process>, NoMemory> {
    let input = input(alloc)?;
    let then = Box::new(alloc, input)?;
    let guarded = Process::When(pred(alloc)?, then);
    Ok(Box::new(alloc, guarded)?)
}

/// The definition of `A`: an output, or an input under a guard.
fn definition(alloc: Global) -> Result<Definition, NoMemory> {
    let left = boxed_output(alloc)?;
    let right = boxed_guarded(alloc)?;
    let body = Process::Choice(left, right);
    Ok(Definition { name: A, body })
}

fn component(alloc: Global) -> Result<Component, NoMemory> {
    let mut initial = List::new(alloc);
    initial.push((N, Value::Scalar(Scalar::Number(-3))))?;
    let mut show = List::new(alloc);
    show.push(N)?;
    show.push(Z)?;
    Ok(Component {
        name: Z,
        initial,
        show,
        run: Process::Call(A),
    })
}

fn program(alloc: Global) -> Result<Program, NoMemory> {
    let mut definitions = List::new(alloc);
    definitions.push(definition(alloc)?)?;
    let mut components = List::new(alloc);
    components.push(component(alloc)?)?;
    Ok(Program {
        names: words(alloc)?,
        components,
        definitions,
    })
}

const PRINTED: &[u8] = b"abc 1;
def A = (set(n), n) @ (ff) . 0 + when (not [this.n < 2 or n in {-1, \"\\\"\", true}]) ? (tt) ($x) . [n := (n + 1) * $x] {A | 0};
comp z {
  n = -3;
  show n, z;
  run A;
}
";

#[test]
fn a_program_is_printed(rt: HostRuntime) -> Result<(), Fail> {
    let program = program(rt.alloc())?;
    let printed = print_program(rt.alloc(), &program)?;
    assert!(rt; printed.as_slice() == PRINTED, "the canonical text");
    Ok(())
}

#[test]
fn a_predicate_and_a_name_are_appended(rt: HostRuntime) -> Result<(), Fail> {
    let names = words(rt.alloc())?;
    let mut out = List::new(rt.alloc());
    print_name(&names, Z, &mut out)?;
    print_name(&names, Name(4), &mut out)?;
    print_pred(rt.alloc(), &pred(rt.alloc())?, &names, &mut out)?;
    let due = b"znot [this.n < 2 or n in {-1, \"\\\"\", true}]";
    assert!(rt;
        out.as_slice() == due.as_slice(),
        "the word and the predicate"
    );
    Ok(())
}

/// `n = 1 + 1 + ..` with this many sums, nested to the left.
fn chain(alloc: Global, sums: u32) -> Result<Pred, NoMemory> {
    let mut sum = number(1);
    for _ in 0..sums {
        let right = Box::new(alloc, number(1))?;
        sum = Operand::Add(Box::new(alloc, sum)?, right);
    }
    Ok(Pred::Same(Operand::Attr(N), sum))
}

#[test]
fn deep_terms_fit_the_stack(rt: HostRuntime) -> Result<(), Fail> {
    let names = words(rt.alloc())?;
    let mut out = List::new(rt.alloc());
    print_pred(rt.alloc(), &chain(rt.alloc(), 2000)?, &names, &mut out)?;
    assert_eq!(rt; out.len(), 8005);
    Ok(())
}
