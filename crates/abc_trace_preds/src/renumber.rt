//! The names of a predicate by new numbers.
ghost use Rattle.std.specs.Prelude.{◌≡◌, ◌<◌, ◌+◌, ◌^◌, map, length, IfOk};
ghost use Rattle.abc_pred.specs.Standing.{operand_of, pred_of};
ghost use Rattle.abc_text.specs.Meanings.{number_in};
ghost use Rattle.abc_trace.specs.Met.{with_words};
ghost use Rattle.abc_trace_preds.specs.Renaming.{numbered, renamed_operand, renamed};

use abc_lexer::Names;
use abc_pred::{Name, Operand, Pred};
use abc_value::{List, NoMemory};
use std::alloc::Global;

/// The new number of a name, which stands at its old one.
fn number_at(numbers: &[u32], name: Name) -> Name
    ensures { result ≡ numbered numbers.now name }
{
    match numbers.get(name.0 as usize) {
        Some(number) => Name(*number),
        None => name,
    }
}

fn renumber_operand(operand: &mut Operand, numbers: &[u32])
    ensures { operand_of operand.new ≡ renamed_operand (numbered numbers.now) (operand_of operand.old) }
{
    match operand {
        Operand::Literal(_) => {}
        Operand::Attr(name) => *name = number_at(numbers, *name),
        Operand::This(name) => *name = number_at(numbers, *name),
        Operand::Var(name) => *name = number_at(numbers, *name),
        Operand::Add(left, right) => {
            renumber_operand(left, numbers);
            renumber_operand(right, numbers);
        }
        Operand::Sub(from, taken) => {
            renumber_operand(from, numbers);
            renumber_operand(taken, numbers);
        }
        Operand::Mul(left, right) => {
            renumber_operand(left, numbers);
            renumber_operand(right, numbers);
        }
        Operand::Size(of) => renumber_operand(of, numbers),
        Operand::Free(of) => renumber_operand(of, numbers),
    }
}

/// Gives each name of the predicate the number that stands at its own.
pub(crate) fn renumber(pred: &mut Pred, numbers: &[u32])
    ensures { pred_of pred.new ≡ renamed (numbered numbers.now) (pred_of pred.old) }
{
    match pred {
        Pred::True => {}
        Pred::False => {}
        Pred::Same(left, right) => {
            renumber_operand(left, numbers);
            renumber_operand(right, numbers);
        }
        Pred::Less(left, right) => {
            renumber_operand(left, numbers);
            renumber_operand(right, numbers);
        }
        Pred::Member(left, right) => {
            renumber_operand(left, numbers);
            renumber_operand(right, numbers);
        }
        Pred::Not(of) => renumber(of, numbers),
        Pred::And(left, right) => {
            renumber(left, numbers);
            renumber(right, numbers);
        }
        Pred::Or(left, right) => {
            renumber(left, numbers);
            renumber(right, numbers);
        }
    }
}

/// The numbers of these words, in order; those that have none get the next.
pub(crate) fn numbers_of<'t>(
    alloc: Global,
    words: &[&'t [u8]],
    names: &mut Names<'t>,
) -> Result<List<u32>, NoMemory>
    requires few { length names.old + length words.now < 2 ^ 32 }
    ensures names { IfOk result (λ _. names.new ≡ with_words names.old (map (λ w. w.now) words.now)) }
    ensures numbers { IfOk result (λ ns. ns ≡ map (number_in names.new) (map (λ w. w.now) words.now)) }
{
    let mut numbers = List::new(alloc);
    for word in words {
        let number = names.number(*word)?;
        numbers.push(number)?;
    }
    Ok(numbers)
}
