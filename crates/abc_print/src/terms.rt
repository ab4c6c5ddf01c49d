//! Operands, expressions and predicates.
ghost use Rattle.std.specs.Prelude.{◌≡◌, ◌≤◌, ◌++◌, OnOk, OnErr, flat_map, map};
ghost use Rattle.abc_pred.specs.Standing.{operand_of, expr_of, pred_of};
ghost use Rattle.abc_printed.specs.Printed.{pred_text};
ghost use Rattle.abc_print.specs.Bytes.{operand_bytes, operand_list, next_operand, expr_bytes, expr_list, next_expr, pred_bytes};

use crate::literals::print_literal;
use crate::words::{print_bracket, print_name, print_variable};
use abc_pred::{Expr, Operand, Pred};
use abc_value::{List, NoMemory, ShortText};
use std::alloc::Global;

/// Appends an operand, in `(` and `)` where its grade is below `asked`. Sums and differences have
/// grade 0, products 1, all others 2.
#[tactic(auto, using(crate::proofs::TermBytes::operand_forms))]
fn print_operand(
    operand: &Operand,
    asked: u8,
    names: &List<ShortText>,
    out: &mut List<u8>,
) -> Result<(), NoMemory>
    requires { asked ≤ 2 }
    ensures { OnOk result (out.new ≡ out.old ++ operand_bytes names.now asked (operand_of operand.now)) }
{
    match operand {
        Operand::Literal(value) => print_literal(value, out),
        Operand::Attr(name) => print_name(names, *name, out),
        Operand::This(name) => {
            out.extend_from_slice(b"this.")?;
            print_name(names, *name, out)
        }
        Operand::Var(name) => print_variable(names, *name, out),
        Operand::Add(left, right) => {
            print_bracket(b'(', 0, asked, out)?;
            print_operand(left, 0, names, out)?;
            out.extend_from_slice(b" + ")?;
            print_operand(right, 1, names, out)?;
            print_bracket(b')', 0, asked, out)
        }
        Operand::Sub(from, taken) => {
            print_bracket(b'(', 0, asked, out)?;
            print_operand(from, 0, names, out)?;
            out.extend_from_slice(b" - ")?;
            print_operand(taken, 1, names, out)?;
            print_bracket(b')', 0, asked, out)
        }
        Operand::Mul(left, right) => {
            print_bracket(b'(', 1, asked, out)?;
            print_operand(left, 1, names, out)?;
            out.extend_from_slice(b" * ")?;
            print_operand(right, 2, names, out)?;
            print_bracket(b')', 1, asked, out)
        }
        Operand::Size(of) => {
            out.extend_from_slice(b"size(")?;
            print_operand(of, 0, names, out)?;
            out.push(b')')
        }
        Operand::Free(of) => {
            out.extend_from_slice(b"free(")?;
            print_operand(of, 0, names, out)?;
            out.push(b')')
        }
    }
}

/// Appends operands, parted by a comma and a space.
#[tactic(auto, using(crate::proofs::TermBytes::operand_lists))]
fn print_operands(
    operands: &[Operand],
    names: &List<ShortText>,
    out: &mut List<u8>,
) -> Result<(), NoMemory>
    ensures { OnOk result (out.new ≡ out.old ++ operand_list names.now (map operand_of operands.now)) }
{
    match operands.split_first() {
        None => Ok(()),
        Some((first, others)) => {
            print_operand(first, 0, names, out)?;
            print_other_operands(others, names, out)
        }
    }
}

#[tactic(auto, using(std::proofs::lemmas::Grind::common_steps, crate::proofs::TermBytes::operand_lists))]
fn print_other_operands(
    others: &[Operand],
    names: &List<ShortText>,
    out: &mut List<u8>,
) -> Result<(), NoMemory>
    ensures { OnOk result (out.new ≡ out.old ++ flat_map (λ o. next_operand names.now (operand_of o)) others.now) }
{
    for other in others {
        out.extend_from_slice(b", ")?;
        print_operand(other, 0, names, out)?;
    }
    Ok(())
}

/// Appends an expression.
#[tactic(auto, using(crate::proofs::TermBytes::expr_forms))]
pub(crate) fn print_expr(
    expr: &Expr,
    names: &List<ShortText>,
    out: &mut List<u8>,
) -> Result<(), NoMemory>
    ensures { OnOk result (out.new ≡ out.old ++ expr_bytes names.now (expr_of expr.now)) }
{
    match expr {
        Expr::Plain(operand) => print_operand(operand, 0, names, out),
        Expr::SetOf(operands) => {
            out.extend_from_slice(b"set(")?;
            print_operands(operands.as_slice(), names, out)?;
            out.push(b')')
        }
        Expr::Union(left, right) => {
            out.extend_from_slice(b"union(")?;
            print_expr(left, names, out)?;
            out.extend_from_slice(b", ")?;
            print_expr(right, names, out)?;
            out.push(b')')
        }
        Expr::Without(left, right) => {
            out.extend_from_slice(b"without(")?;
            print_expr(left, names, out)?;
            out.extend_from_slice(b", ")?;
            print_expr(right, names, out)?;
            out.push(b')')
        }
    }
}

/// Appends expressions, parted by a comma and a space.
#[tactic(auto, using(crate::proofs::TermBytes::expr_lists))]
pub(crate) fn print_exprs(
    exprs: &[Expr],
    names: &List<ShortText>,
    out: &mut List<u8>,
) -> Result<(), NoMemory>
    ensures { OnOk result (out.new ≡ out.old ++ expr_list names.now (map expr_of exprs.now)) }
{
    match exprs.split_first() {
        None => Ok(()),
        Some((first, others)) => {
            print_expr(first, names, out)?;
            print_other_exprs(others, names, out)
        }
    }
}

#[tactic(auto, using(std::proofs::lemmas::Grind::common_steps, crate::proofs::TermBytes::expr_lists))]
fn print_other_exprs(
    others: &[Expr],
    names: &List<ShortText>,
    out: &mut List<u8>,
) -> Result<(), NoMemory>
    ensures { OnOk result (out.new ≡ out.old ++ flat_map (λ e. next_expr names.now (expr_of e)) others.now) }
{
    for other in others {
        out.extend_from_slice(b", ")?;
        print_expr(other, names, out)?;
    }
    Ok(())
}

/// Appends two operands with what stands between them.
fn print_test(
    left: &Operand,
    between: &[u8],
    right: &Operand,
    names: &List<ShortText>,
    out: &mut List<u8>,
) -> Result<(), NoMemory>
    ensures { OnOk result (out.new ≡ out.old ++ operand_bytes names.now 0 (operand_of left.now)
        ++ between.now ++ operand_bytes names.now 0 (operand_of right.now)) }
{
    print_operand(left, 0, names, out)?;
    out.extend_from_slice(between)?;
    print_operand(right, 0, names, out)
}

/// Appends a predicate, in `[` and `]` where its grade is below `asked`. `or` has grade 0, `and` 1,
/// all others 2.
#[tactic(auto, using(crate::proofs::TermBytes::pred_forms))]
pub(crate) fn print_guard(
    pred: &Pred,
    asked: u8,
    names: &List<ShortText>,
    out: &mut List<u8>,
) -> Result<(), NoMemory>
    requires { asked ≤ 2 }
    ensures { OnOk result (out.new ≡ out.old ++ pred_bytes names.now asked (pred_of pred.now)) }
{
    match pred {
        Pred::True => out.extend_from_slice(b"tt"),
        Pred::False => out.extend_from_slice(b"ff"),
        Pred::Same(left, right) => print_test(left, b" = ", right, names, out),
        Pred::Less(left, right) => print_test(left, b" < ", right, names, out),
        Pred::Member(left, right) => print_test(left, b" in ", right, names, out),
        Pred::Not(of) => {
            out.extend_from_slice(b"not ")?;
            print_guard(of, 2, names, out)
        }
        Pred::And(left, right) => {
            print_bracket(b'[', 1, asked, out)?;
            print_guard(left, 1, names, out)?;
            out.extend_from_slice(b" and ")?;
            print_guard(right, 2, names, out)?;
            print_bracket(b']', 1, asked, out)
        }
        Pred::Or(left, right) => {
            print_bracket(b'[', 0, asked, out)?;
            print_guard(left, 0, names, out)?;
            out.extend_from_slice(b" or ")?;
            print_guard(right, 1, names, out)?;
            print_bracket(b']', 0, asked, out)
        }
    }
}

/// Appends the canonical text of a predicate, where `names` has each name's word at its number.
/// After NoMemory a front of it stands behind what was there.
#[tactic(auto, using(crate::proofs::TermBytes::pred_whole))]
pub fn append_pred(pred: &Pred, names: &List<ShortText>, out: &mut List<u8>) -> Result<(), NoMemory>
    ensures { OnOk result (out.new ≡ out.old ++ pred_text names.now (pred_of pred.now)) }
{
    print_guard(pred, 0, names, out)
}

/// Appends the canonical text of a predicate as `append_pred` does; after NoMemory `out` is as
/// before.
pub fn print_pred(
    alloc: Global,
    pred: &Pred,
    names: &List<ShortText>,
    out: &mut List<u8>,
) -> Result<(), NoMemory>
    ensures ok { OnOk result (out.new ≡ out.old ++ pred_text names.now (pred_of pred.now)) }
    ensures err { OnErr result (out.new ≡ out.old) }
{
    let mut text = List::new(alloc);
    append_pred(pred, names, &mut text)?;
    out.extend_from_slice(text.as_slice())
}
