//! Copies of what a run keeps, with memory of their own.
ghost use Rattle.std.specs.Prelude.{◌≡◌, IfOk};
ghost use Rattle.abc_pred.specs.Standing.{pred_of};

use abc_moves::Label;
use abc_pred::{Bindings, Env, Name, Pred, close};
use abc_value::{List, NoMemory, Value};
use std::alloc::Global;

/// The same values.
pub fn copy_values(alloc: Global, values: &[Value]) -> Result<List<Value>, NoMemory>
    ensures { IfOk result (λ vs. vs ≡ values.now) }
{
    let mut copies = List::with_capacity(alloc, values.len())?;
    for value in values {
        copies.push(value.view().to_value(alloc)?)?;
    }
    Ok(copies)
}

/// The same attributes with their values.
pub fn copy_entries(
    alloc: Global,
    entries: &[(Name, Value)],
) -> Result<List<(Name, Value)>, NoMemory>
    ensures { IfOk result (λ es. es ≡ entries.now) }
{
    let mut copies = List::with_capacity(alloc, entries.len())?;
    for entry in entries {
        copies.push((entry.0, entry.1.view().to_value(alloc)?))?;
    }
    Ok(copies)
}

/// The predicate of a label. It is closed, so that closing it again changes nothing.
pub fn copy_pred(alloc: Global, label: &Label) -> Result<Pred, NoMemory>
    ensures { IfOk result (λ p. pred_of p ≡ pred_of label.now.pred) }
{
    let own = Env::empty(alloc);
    let vars = Bindings::empty(alloc);
    close(alloc, &label.pred, &own, &vars)
}
