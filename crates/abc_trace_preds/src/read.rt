//! The predicate of a line of a trace.
ghost use Rattle.std.specs.Prelude.{◌≡◌, ◌<◌, ◌+◌, ◌^◌, length, IfOk};
ghost use Rattle.abc_text.specs.Meanings.{AreDifferent};
ghost use Rattle.abc_trace_preds.specs.Reading.{IsReadPred};

use crate::alone::{Alone, read_alone};
use crate::renumber::{numbers_of, renumber};
use abc_lexer::Names;
use abc_pred::Pred;
use abc_value::NoMemory;
use std::alloc::Global;

/// The predicate whose text these bytes are, where it is closed, is within its limits and is written
/// canonically; None where there is none. The words that it names first get the next numbers; what
/// `names` holds after None or NoMemory is not told.
pub fn read_sent<'t>(
    alloc: Global,
    bytes: &'t [u8],
    names: &mut Names<'t>,
) -> Result<Option<Pred>, NoMemory>
    requires different { AreDifferent names.old }
    requires few { length names.old + length bytes.now < 2 ^ 32 }
    ensures { IfOk result (λ p. IsReadPred names.old bytes.now names.new p) }
{
    match read_alone(alloc, bytes)? {
        None => Ok(None),
        Some(
            Alone {
                mut pred,
                names: own,
            },
        ) => {
            let numbers = numbers_of(alloc, own.words(), names)?;
            renumber(&mut pred, numbers.as_slice());
            Ok(Some(pred))
        }
    }
}
