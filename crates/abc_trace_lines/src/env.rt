//! The line of a component's attributes.
ghost use Rattle.std.specs.Prelude.{◌≡◌, ℕ, List, map, IfOk, MatchOption};
ghost use Rattle.abc_value.specs.declared.value.Value.{Value};
ghost use Rattle.abc_value.specs.Literals.{literal, IsValue};
ghost use Rattle.abc_trace_lines.specs.Plain.{Env};
ghost use Rattle.abc_trace_lines.specs.Items.{IsEntryFront, IsEntriesFront};
ghost use Rattle.abc_trace_lines.specs.Reading.{AreEntries, IsLine};

use crate::differ::words_differ;
use crate::fronts::{behind, is_text};
use crate::items::read_literal;
use crate::names::name_before;
use abc_value::{List, NoMemory, Value};
use std::alloc::Global;

/// `A = V; `: an attribute with its value, which is not none, and what follows.
fn read_entry<'t>(
    alloc: Global,
    bytes: &'t [u8],
) -> Result<Option<((&'t [u8], Value), &'t [u8])>, NoMemory>
    ensures { IfOk result (λ o. MatchOption o
        ((e : List ℕ × Value) (more : List ℕ) → ¬ (IsEntryFront bytes.now e more))
        (λ r. IsEntryFront bytes.now (r.0.0.now, r.0.1) r.1.now)) }
{
    let Some((word, behind_word)) = name_before(bytes, b' ') else {
        return Ok(None);
    };
    let Some(text) = behind(behind_word, b"= ") else {
        return Ok(None);
    };
    let Some((value, rest)) = read_literal(alloc, text)? else {
        return Ok(None);
    };
    let Some(more) = behind(rest, b"; ") else {
        return Ok(None);
    };
    match value {
        Value::Nothing => Ok(None),
        value => Ok(Some(((word, value), more))),
    }
}

/// Attributes with their values up to the bracket that closes them, and what follows.
fn read_each_entry<'t>(
    alloc: Global,
    bytes: &'t [u8],
) -> Result<Option<(List<(&'t [u8], Value)>, &'t [u8])>, NoMemory>
    ensures { IfOk result (λ o. MatchOption o
        ((es : List (List ℕ × Value)) (more : List ℕ) → ¬ (IsEntriesFront bytes.now es more))
        (λ r. IsEntriesFront bytes.now (map (λ e. (e.0.now, e.1)) r.0) r.1.now)) }
{
    let mut entries = List::new(alloc);
    let mut rest = bytes;
    'entries: loop {
        if let Some(more) = behind(rest, b"}") {
            return Ok(Some((entries, more)));
        }
        let Some((entry, more)) = read_entry(alloc, rest)? else {
            return Ok(None);
        };
        entries.push(entry)?;
        rest = more;
    }
}

/// `{}`, or `{ A = V; B = W; }`.
fn read_entries<'t>(
    alloc: Global,
    bytes: &'t [u8],
) -> Result<Option<List<(&'t [u8], Value)>>, NoMemory>
    ensures { IfOk result (λ o. MatchOption o
        ((entries : List (List ℕ × Value)) → ¬ (AreEntries bytes.now entries))
        (λ r. AreEntries bytes.now (map (λ e. (e.0.now, e.1)) r))) }
{
    if is_text(bytes, b"{}") {
        return Ok(Some(List::new(alloc)));
    }
    let Some(inside) = behind(bytes, b"{ ") else {
        return Ok(None);
    };
    let Some((entries, more)) = read_each_entry(alloc, inside)? else {
        return Ok(None);
    };
    if entries.is_empty() {
        return Ok(None);
    }
    if !more.is_empty() {
        return Ok(None);
    }
    if words_differ(alloc, entries.as_slice())? {
        Ok(Some(entries))
    } else {
        Ok(None)
    }
}

/// `env NAME` and its attributes: the component, and each attribute with its value.
pub fn read_env<'t>(
    alloc: Global,
    line: &'t [u8],
) -> Result<Option<(&'t [u8], List<(&'t [u8], Value)>)>, NoMemory>
    ensures { IfOk result (λ o. MatchOption o
        ((word : List ℕ) (es : List (List ℕ × Value)) → ¬ (IsLine line.now (Env word es)))
        (λ r. IsLine line.now (Env r.0.now (map (λ e. (e.0.now, e.1)) r.1)))) }
{
    let Some(named) = behind(line, b"env ") else {
        return Ok(None);
    };
    let Some((component, text)) = name_before(named, b' ') else {
        return Ok(None);
    };
    let Some(entries) = read_entries(alloc, text)? else {
        return Ok(None);
    };
    Ok(Some((component, entries)))
}
