//! Terms as texts, with a bracket round each joined pair, so that they show how they were read.
use abc_pred::{Name, Operand, Pred};
use abc_value::{List, NoMemory, write_value};
use std::alloc::Global;

fn joined(
    alloc: Global,
    left: List<u8>,
    sign: &[u8],
    right: List<u8>,
) -> Result<List<u8>, NoMemory> {
    let mut all = List::new(alloc);
    all.extend_from_slice(b"(")?;
    all.extend_from_slice(left.as_slice())?;
    all.extend_from_slice(sign)?;
    all.extend_from_slice(right.as_slice())?;
    all.extend_from_slice(b")")?;
    Ok(all)
}

fn applied(
    alloc: Global,
    before: &[u8],
    inner: List<u8>,
    behind: &[u8],
) -> Result<List<u8>, NoMemory> {
    let mut all = List::new(alloc);
    all.extend_from_slice(before)?;
    all.extend_from_slice(inner.as_slice())?;
    all.extend_from_slice(behind)?;
    Ok(all)
}

/// A letter and the last digit of the name's number.
fn numbered(alloc: Global, letter: u8, name: Name) -> Result<List<u8>, NoMemory> {
    let mut all = List::new(alloc);
    all.push(letter)?;
    all.push(b'0' + (name.0 % 10) as u8)?;
    Ok(all)
}

fn word(alloc: Global, text: &[u8]) -> Result<List<u8>, NoMemory> {
    let mut all = List::new(alloc);
    all.extend_from_slice(text)?;
    Ok(all)
}

fn operand(o: &Operand, alloc: Global) -> Result<List<u8>, NoMemory> {
    match o {
        Operand::Literal(v) => {
            let mut all = List::new(alloc);
            write_value(alloc, v.view(), &mut all)?;
            Ok(all)
        }
        Operand::Attr(a) => numbered(alloc, b'a', *a),
        Operand::This(a) => numbered(alloc, b't', *a),
        Operand::Var(x) => numbered(alloc, b'v', *x),
        Operand::Add(l, r) => {
            let left = operand(l, alloc)?;
            joined(alloc, left, b" + ", operand(r, alloc)?)
        }
        Operand::Sub(l, r) => {
            let left = operand(l, alloc)?;
            joined(alloc, left, b" - ", operand(r, alloc)?)
        }
        Operand::Mul(l, r) => {
            let left = operand(l, alloc)?;
            joined(alloc, left, b" * ", operand(r, alloc)?)
        }
        Operand::Size(o) => applied(alloc, b"size(", operand(o, alloc)?, b")"),
        Operand::Free(o) => applied(alloc, b"free(", operand(o, alloc)?, b")"),
    }
}

fn compared(alloc: Global, l: &Operand, sign: &[u8], r: &Operand) -> Result<List<u8>, NoMemory> {
    let left = operand(l, alloc)?;
    joined(alloc, left, sign, operand(r, alloc)?)
}

pub fn shown_pred(p: &Pred, alloc: Global) -> Result<List<u8>, NoMemory> {
    match p {
        Pred::True => word(alloc, b"tt"),
        Pred::False => word(alloc, b"ff"),
        Pred::Same(l, r) => compared(alloc, l, b" = ", r),
        Pred::Less(l, r) => compared(alloc, l, b" < ", r),
        Pred::Member(l, r) => compared(alloc, l, b" in ", r),
        Pred::Not(p) => applied(alloc, b"not ", shown_pred(p, alloc)?, b""),
        Pred::And(p, q) => {
            let left = shown_pred(p, alloc)?;
            joined(alloc, left, b" and ", shown_pred(q, alloc)?)
        }
        Pred::Or(p, q) => {
            let left = shown_pred(p, alloc)?;
            joined(alloc, left, b" or ", shown_pred(q, alloc)?)
        }
    }
}
