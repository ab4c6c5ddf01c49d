//! The line of a number: who had it, and what it said.
ghost use Rattle.std.specs.Prelude.{◌≡◌, ◌++◌, ◌∷◌, ℕ, List, Option, map, IfOk, MatchOption};
ghost use Rattle.abc_value.specs.declared.value.Value.{Value};
ghost use Rattle.abc_trace_lines.specs.Plain as plain;
ghost use Rattle.abc_trace_lines.specs.Plain.{Number};
ghost use Rattle.abc_trace_lines.specs.Reading.{IsCutLast, IsLine, IsMulticast, IsSaid, IsSent, IsTail, plain_said, plain_tail};

use crate::fronts::{behind, behind_mark, is_text};
use crate::heard::read_hearers;
use crate::items::read_tuple;
use crate::names::name;
use crate::numbers::{number_before, place};
use crate::parts::SaidParts;
use abc_value::{List, NoMemory, Value};
use std::alloc::Global;

/// What stands before the last `)`, and what stands behind it.
fn cut_last(bytes: &[u8]) -> Option<(&[u8], &[u8])>
    ensures { MatchOption result
        ((front : List ℕ) (more : List ℕ) → ¬ (bytes.now ≡ front ++ 41 ∷ more))
        (λ r. IsCutLast bytes.now r.0.now r.1.now) }
{
    let mut at = bytes.len();
    while at > 0 {
        at -= 1;
        if bytes[at] == b')' {
            return Some((&bytes[..at], &bytes[at + 1..]));
        }
    }
    None
}

/// `PRED) -> HEARERS`: the predicate as it is written, and those that heard.
fn read_sent<'t>(
    alloc: Global,
    bytes: &'t [u8],
) -> Result<Option<(&'t [u8], List<(&'t [u8], u32)>)>, NoMemory>
    ensures { IfOk result (λ o. MatchOption o
        ((pred : List ℕ) (heard : List (List ℕ × ℕ)) → ¬ (IsSent bytes.now pred heard))
        (λ r. IsSent bytes.now r.0.now (map (λ h. (h.0.now, h.1)) r.1))) }
{
    let Some((pred, more)) = cut_last(bytes) else {
        return Ok(None);
    };
    let Some(text) = behind(more, b" -> ") else {
        return Ok(None);
    };
    let Some(heard) = read_hearers(alloc, text)? else {
        return Ok(None);
    };
    Ok(Some((pred, heard)))
}

/// `(VALUES) @ (PRED) -> HEARERS`, behind a place.
fn read_multicast<'t>(
    alloc: Global,
    place: u32,
    bytes: &'t [u8],
) -> Result<Option<SaidParts<'t>>, NoMemory>
    ensures { IfOk result (λ o. MatchOption o
        ((s : plain.Said) → ¬ (IsMulticast place bytes.now s))
        (λ r. IsMulticast place bytes.now (plain_said r))) }
{
    let Some((values, rest)) = read_tuple(alloc, bytes)? else {
        return Ok(None);
    };
    let Some(text) = behind(rest, b" @ (") else {
        return Ok(None);
    };
    let Some((pred, heard)) = read_sent(alloc, text)? else {
        return Ok(None);
    };
    Ok(Some(SaidParts {
        place,
        values,
        pred,
        heard,
    }))
}

/// `PLACE (VALUES) @ (PRED) -> HEARERS`.
fn read_said<'t>(alloc: Global, bytes: &'t [u8]) -> Result<Option<SaidParts<'t>>, NoMemory>
    ensures { IfOk result (λ o. MatchOption o
        ((s : plain.Said) → ¬ (IsSaid bytes.now s))
        (λ r. IsSaid bytes.now (plain_said r))) }
{
    let Some((place, rest)) = place(bytes) else {
        return Ok(None);
    };
    let Some(text) = behind_mark(rest, b' ') else {
        return Ok(None);
    };
    let Some(said) = read_multicast(alloc, place, text)? else {
        return Ok(None);
    };
    Ok(Some(said))
}

/// What stands behind the sender: ` -` where nothing was said, else `:` and what was said.
fn read_tail<'t>(alloc: Global, bytes: &'t [u8]) -> Result<Option<Option<SaidParts<'t>>>, NoMemory>
    ensures { IfOk result (λ o. MatchOption o
        ((said : Option plain.Said) → ¬ (IsTail bytes.now said))
        (λ r. IsTail bytes.now (plain_tail r))) }
{
    if is_text(bytes, b" -") {
        return Ok(Some(None));
    }
    let Some(text) = behind_mark(bytes, b':') else {
        return Ok(None);
    };
    let Some(said) = read_said(alloc, text)? else {
        return Ok(None);
    };
    Ok(Some(Some(said)))
}

/// `N SENDER` and what was said: the number, the sender, and what it said, if anything.
pub fn read_number<'t>(
    alloc: Global,
    line: &'t [u8],
) -> Result<Option<(u64, &'t [u8], Option<SaidParts<'t>>)>, NoMemory>
    ensures { IfOk result (λ o. MatchOption o
        ((n : ℕ) (sender : List ℕ) (said : Option plain.Said) →
        ¬ (IsLine line.now (Number n sender said)))
        (λ r. IsLine line.now (Number r.0 r.1.now (plain_tail r.2)))) }
{
    let Some((n, rest)) = number_before(line, b' ') else {
        return Ok(None);
    };
    let Some((sender, text)) = name(rest) else {
        return Ok(None);
    };
    let Some(said) = read_tail(alloc, text)? else {
        return Ok(None);
    };
    Ok(Some((n, sender, said)))
}
