ghost use Rattle.std.specs.Prelude.{◌≡◌, IfOk, unwrap_or};
ghost use Rattle.abc_term.specs.Standing.{updates_of};
ghost use Rattle.abc_term.specs.Substitution.{put_updates};
ghost use Rattle.abc_term.specs.Speaking.{updated};

use crate::evaluation::evaluated;
use abc_pred::{Env, Variables};
use abc_term::Update;
use abc_value::NoMemory;
use std::alloc::Global;

/// The environment after updates, made in order, each seen by the next; none where there are none.
pub fn updated<V: Variables>(
    alloc: Global,
    env: &Env,
    vars: &V,
    updates: &[Update],
) -> Result<Option<Env>, NoMemory>
    ensures { IfOk result (λ e. unwrap_or e env.now
        ≡ updated (put_updates (V.bound vars.now) (updates_of updates.now)) env.now) }
{
    if updates.is_empty() {
        return Ok(None);
    }
    let mut new = env.copy(alloc)?;
    for update in updates {
        let value = evaluated(alloc, &update.value, &new, vars)?;
        new.set(update.name, value)?;
    }
    Ok(Some(new))
}
