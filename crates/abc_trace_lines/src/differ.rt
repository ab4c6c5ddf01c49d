//! Whether words are different.
ghost use Rattle.std.specs.Prelude.{map, IfOk, MatchBool};
ghost use Rattle.abc_text.specs.Meanings.{AreDifferent};

use abc_value::NoMemory;
use indexmap::IndexSet;
use std::alloc::Global;

/// Whether the words of the items are different.
pub fn words_differ<T>(alloc: Global, items: &[(&[u8], T)]) -> Result<bool, NoMemory>
    ensures { IfOk result (λ b. MatchBool b (AreDifferent (map (λ e. e.0.now) items.now))
        (¬ (AreDifferent (map (λ e. e.0.now) items.now)))) }
{
    let mut met = IndexSet::new(alloc);
    for item in items {
        let is_new = met.insert(item.0)?;
        if !is_new {
            return Ok(false);
        }
    }
    Ok(true)
}
