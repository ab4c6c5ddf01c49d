//! Those that heard a message.
ghost use Rattle.std.specs.Prelude.{◌≡◌, ℕ, List, map, IfOk, MatchOption};
ghost use Rattle.abc_trace_lines.specs.Plain.{hearer_text};
ghost use Rattle.abc_trace_lines.specs.Spelled.{IsHearer};
ghost use Rattle.abc_trace_lines.specs.Items.{IsItemFront, IsPartedFront};
ghost use Rattle.abc_trace_lines.specs.Reading.{AreHearers};

use crate::differ::words_differ;
use crate::fronts::{behind, is_text};
use crate::names::name_before;
use crate::numbers::place;
use abc_value::{List, NoMemory};
use std::alloc::Global;

/// One that heard, with its place, and what follows.
fn read_hearer(bytes: &[u8]) -> Option<((&[u8], u32), &[u8])>
    ensures { MatchOption result
        ((h : List ℕ × ℕ) (more : List ℕ) → ¬ (IsItemFront hearer_text IsHearer bytes.now h more))
        (λ r. IsItemFront hearer_text IsHearer bytes.now (r.0.0.now, r.0.1) r.1.now) }
{
    let Some((word, digits)) = name_before(bytes, b':') else {
        return None;
    };
    let Some((place, more)) = place(digits) else {
        return None;
    };
    Some(((word, place), more))
}

/// Those that heard, parted by a comma and a space, and what follows.
fn read_each_hearer<'t>(
    alloc: Global,
    bytes: &'t [u8],
) -> Result<Option<(List<(&'t [u8], u32)>, &'t [u8])>, NoMemory>
    ensures { IfOk result (λ o. MatchOption o
        ((hs : List (List ℕ × ℕ)) (more : List ℕ) →
        ¬ (IsPartedFront hearer_text IsHearer bytes.now hs more))
        (λ r. IsPartedFront hearer_text IsHearer bytes.now
        (map (λ h. (h.0.now, h.1)) r.0) r.1.now)) }
{
    let Some((first, mut rest)) = read_hearer(bytes) else {
        return Ok(None);
    };
    let mut heard = List::new(alloc);
    heard.push(first)?;
    while let Some(next) = behind(rest, b", ") {
        let Some((hearer, more)) = read_hearer(next) else {
            return Ok(None);
        };
        heard.push(hearer)?;
        rest = more;
    }
    Ok(Some((heard, rest)))
}

/// `NAME:PLACE, NAME:PLACE`, or `-` where nobody heard.
pub fn read_hearers<'t>(
    alloc: Global,
    bytes: &'t [u8],
) -> Result<Option<List<(&'t [u8], u32)>>, NoMemory>
    ensures { IfOk result (λ o. MatchOption o
        ((heard : List (List ℕ × ℕ)) → ¬ (AreHearers bytes.now heard))
        (λ r. AreHearers bytes.now (map (λ h. (h.0.now, h.1)) r))) }
{
    if is_text(bytes, b"-") {
        return Ok(Some(List::new(alloc)));
    }
    let Some((heard, more)) = read_each_hearer(alloc, bytes)? else {
        return Ok(None);
    };
    if !more.is_empty() {
        return Ok(None);
    }
    if words_differ(alloc, heard.as_slice())? {
        Ok(Some(heard))
    } else {
        Ok(None)
    }
}
