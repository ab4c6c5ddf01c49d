//! Whether a predicate reads the receiver's attributes alone.
ghost use Rattle.std.specs.Prelude.{◌↔◌, IsTrue};
ghost use Rattle.abc_pred.specs.Meaning.{IsClosed, IsClosedOperand};
ghost use Rattle.abc_pred.specs.Standing.{operand_of, pred_of};

use abc_pred::{Operand, Pred};

/// Whether an operand has no own attribute and no variable.
fn is_closed_operand(operand: &Operand) -> bool
    ensures { IsTrue result ↔ IsClosedOperand (operand_of operand.now) }
{
    match operand {
        Operand::Literal(_) => true,
        Operand::Attr(_) => true,
        Operand::This(_) => false,
        Operand::Var(_) => false,
        Operand::Add(left, right) => is_closed_operand(left) && is_closed_operand(right),
        Operand::Sub(from, taken) => is_closed_operand(from) && is_closed_operand(taken),
        Operand::Mul(left, right) => is_closed_operand(left) && is_closed_operand(right),
        Operand::Size(of) => is_closed_operand(of),
        Operand::Free(of) => is_closed_operand(of),
    }
}

/// Whether a predicate has no own attribute and no variable.
pub(crate) fn is_closed(pred: &Pred) -> bool
    ensures { IsTrue result ↔ IsClosed (pred_of pred.now) }
{
    match pred {
        Pred::True => true,
        Pred::False => true,
        Pred::Same(left, right) => is_closed_operand(left) && is_closed_operand(right),
        Pred::Less(left, right) => is_closed_operand(left) && is_closed_operand(right),
        Pred::Member(left, right) => is_closed_operand(left) && is_closed_operand(right),
        Pred::Not(of) => is_closed(of),
        Pred::And(left, right) => is_closed(left) && is_closed(right),
        Pred::Or(left, right) => is_closed(left) && is_closed(right),
    }
}
