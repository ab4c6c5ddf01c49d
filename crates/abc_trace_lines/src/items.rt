//! Items one behind another: values, those that heard, attributes with their values.
ghost use Rattle.std.specs.Prelude.{◌≡◌, ℕ, List, map, IfOk, MatchBool, MatchOption};
ghost use Rattle.abc_value.specs.declared.value.Value.{Value};
ghost use Rattle.abc_value.specs.Literals.{literal, IsLongest, IsValue};
ghost use Rattle.abc_text.specs.Tokens as spec;
ghost use Rattle.abc_trace_lines.specs.Fronts.{StopsAt};
ghost use Rattle.abc_trace_lines.specs.Items.{IsItemFront, IsPartedFront, IsTupleFront};

use crate::fronts::{behind, is_digit};
use abc_grammar::MOST_PARTS;
use abc_value::{List, NoMemory, Value, ValueRefusal, read_value};
use std::alloc::Global;

/// Whether a digit stands at the front.
fn begins_with_digit(bytes: &[u8]) -> bool
    ensures { MatchBool result (¬ (StopsAt spec.is_digit bytes.now))
        (StopsAt spec.is_digit bytes.now) }
{
    match bytes.split_first() {
        Some((first, _)) => is_digit(*first),
        None => false,
    }
}

/// The value whose literal stands at the front, and what follows it.
pub fn read_literal<'t>(
    alloc: Global,
    bytes: &'t [u8],
) -> Result<Option<(Value, &'t [u8])>, NoMemory>
    ensures { IfOk result (λ o. MatchOption o
        ((v : Value) (more : List ℕ) → ¬ (IsItemFront literal IsValue bytes.now v more))
        (λ r. IsItemFront literal IsValue bytes.now r.0 r.1.now)) }
{
    match read_value(alloc, bytes) {
        Ok((value, len)) => {
            let (_, more) = bytes.split_at(len);
            if begins_with_digit(more) {
                Ok(None)
            } else {
                Ok(Some((value, more)))
            }
        }
        Err(ValueRefusal::Bad) => Ok(None),
        Err(ValueRefusal::NoMemory) => Err(NoMemory),
    }
}

/// The values at the front, parted by a comma and a space, and what follows them.
fn read_values<'t>(
    alloc: Global,
    bytes: &'t [u8],
) -> Result<Option<(List<Value>, &'t [u8])>, NoMemory>
    ensures { IfOk result (λ o. MatchOption o
        ((vs : List Value) (more : List ℕ) → ¬ (IsPartedFront literal IsValue bytes.now vs more))
        (λ r. IsPartedFront literal IsValue bytes.now r.0 r.1.now)) }
{
    let Some((first, mut rest)) = read_literal(alloc, bytes)? else {
        return Ok(None);
    };
    let mut values = List::new(alloc);
    values.push(first)?;
    while let Some(next) = behind(rest, b", ") {
        let Some((value, more)) = read_literal(alloc, next)? else {
            return Ok(None);
        };
        values.push(value)?;
        rest = more;
    }
    Ok(Some((values, rest)))
}

/// The values in brackets at the front, at most eight, and what follows the brackets.
pub fn read_tuple<'t>(
    alloc: Global,
    bytes: &'t [u8],
) -> Result<Option<(List<Value>, &'t [u8])>, NoMemory>
    ensures { IfOk result (λ o. MatchOption o
        ((values : List Value) (more : List ℕ) → ¬ (IsTupleFront bytes.now values more))
        (λ r. IsTupleFront bytes.now r.0 r.1.now)) }
{
    let Some(inside) = behind(bytes, b"(") else {
        return Ok(None);
    };
    if let Some(more) = behind(inside, b")") {
        return Ok(Some((List::new(alloc), more)));
    }
    let Some((values, rest)) = read_values(alloc, inside)? else {
        return Ok(None);
    };
    let Some(more) = behind(rest, b")") else {
        return Ok(None);
    };
    if values.len() > MOST_PARTS {
        return Ok(None);
    }
    Ok(Some((values, more)))
}
